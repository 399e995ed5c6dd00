// FlatZinc carried over to the words of a model.
#![tactic(auto)]

pub mod booleans;
pub mod calls;
pub mod carry;
pub mod read;
pub mod text;
pub mod variables;
