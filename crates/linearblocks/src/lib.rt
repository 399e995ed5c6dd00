// The blocks of sums of terms, and of lists of Boolean variables.
#![tactic(auto)]

pub mod clause;
pub mod linear;
mod sums;
