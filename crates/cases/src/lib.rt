// What the recorded cases of the calls have in common: how one is read, and the lists that are lent to a call.
#![tactic(auto)]

pub mod input;
pub mod lent;
