// What the statements read so far have declared and asked for.
use flatzinc::{Atom, Declared, Item, Value};
use std::collections::BTreeMap;

// What a name stands for: a variable by its number, the value of a parameter or an array, what no builtin takes.
#[derive(Debug, Drop)]
pub enum Known {
    Variable(usize),
    Parameter(Value),
    Other,
}

// What each name stands for.
pub type Scope<'a> = BTreeMap<&'a [u8], Known>;

// What the solve item asks for.
#[derive(Clone, Copy, Debug, PartialEq, Eq)]
pub enum Aim {
    Satisfy,
    Minimize(Atom),
    Maximize(Atom),
}

// The state after some statements; the names of the variables, by number, are for messages alone.
#[derive(Debug, Drop)]
pub struct State<'a> {
    pub scope: Scope<'a>,
    pub names: Vec<&'a [u8]>,
    pub variables: Vec<Declared>,
    pub constraints: Vec<Item>,
    pub aim: Option<Aim>,
}
