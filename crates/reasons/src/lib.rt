// Which builtin lies behind a failed row: specs/ defines the reason, proofs/ what it says of the row system. No code is needed here.
#![tactic(auto)]
