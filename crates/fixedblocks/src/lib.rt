// The blocks of the builtins without lists.
#![tactic(auto)]

pub mod boolean;
pub mod compare;
pub mod number;
pub mod rows;
