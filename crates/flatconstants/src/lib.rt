// Constants as variables of one value: calls of atoms as calls of variables.
#![tactic(auto)]

mod atoms;
mod constant;
pub mod number;
mod numbers;
mod places;
mod shorter;
pub mod table;
pub mod typed;
