// The text of a model: a line a variable and a constraint, with names that are free, the model's names for them, and their places.
#![tactic(auto)]

pub mod arguments;
pub mod builtins;
pub mod elements;
pub mod names;
#[cfg(test)]
mod tests;
pub mod text;
