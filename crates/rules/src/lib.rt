// The rules of the 39 codes, as definitions: specs/ has them all. No code is needed here.
#![tactic(auto)]
