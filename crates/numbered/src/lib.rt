// What is answered for any number of a code, a shape or a fault, also for one that none has.
// The crates below take enums of those that there are; the definitions speak of numbers, and so do the functions here.
#![tactic(auto)]

pub mod codes;
pub mod refusals;
pub mod shapes;
