// The quadratic form of a row system over bits: specs/ defines it, proofs/ shows where it is 0. No code is needed here.
#![tactic(auto)]
