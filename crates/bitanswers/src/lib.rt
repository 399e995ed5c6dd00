// What bits say of a row system, and the bits of values: specs/ defines what the calls answer, proofs/ shows what the answers mean. No code is needed here.
#![tactic(auto)]
