// A model and its row system share their solutions: specs/ states it, proofs/ proves it. No code is needed here.
#![tactic(auto)]
