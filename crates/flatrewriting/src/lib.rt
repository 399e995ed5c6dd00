// What each item becomes: calls of builtins with a code; those without a code by clauses, clauses without constants.
#![tactic(auto)]

pub mod arguments;
pub mod clauses;
pub mod items;
pub mod range;
pub mod sort;
pub mod variables;
