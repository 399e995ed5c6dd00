// Where the statements of a FlatZinc text come from in the MiniZinc model, by their annotations, and the names that the model has for variables.
#![tactic(auto)]

pub mod annotations;
pub mod common;
pub mod labels;
pub mod paths;
pub mod places;
pub mod shown;
#[cfg(test)]
mod tests;
