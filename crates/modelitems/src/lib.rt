// The items of a model: the arguments of each code, the fault of a word, and reading one item from its place.
#![tactic(auto)]

pub mod faults;
pub mod items;
pub mod shapes;
