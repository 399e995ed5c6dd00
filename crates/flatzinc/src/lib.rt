// FlatZinc: the items of a text with parameters and arrays put in, what they mean, and the constraints that they become on the way to a model's words.
#![tactic(auto)]

ghost use Rattle.std.specs.Prelude.{◌≡◌};
ghost use Rattle.flatzinc.specs.Numbers.{number_of, limits};

pub mod trouble;

use integers::Bounds;
use models::code::Code;

// A number, a Boolean, a variable by its number.
#[derive(Clone, Copy, Debug, PartialEq, Eq)]
pub enum Atom {
    Whole(i64),
    Truth(bool),
    Variable(usize),
}

// An argument as FlatZinc has it: an atom, a list in brackets, a set in braces, a range.
#[derive(Debug, Drop)]
pub enum Value {
    One(Atom),
    Many(Vec<Atom>),
    Members(Vec<i64>),
    Range(i64, i64),
}

// What a variable may be: bool, LO..HI, {N,..}.
#[derive(Debug, Drop)]
pub enum Domain {
    Bools,
    Between(i64, i64),
    Among(Vec<i64>),
}

// A variable, with the value that it is declared equal to.
#[derive(Debug, Drop)]
pub struct Declared {
    pub domain: Domain,
    pub given: Option<Atom>,
}

// A constraint: a builtin with a code and its arguments; one of those without a code; set_in of a range.
#[derive(Debug, Drop)]
pub enum Item {
    Coded(Code, Vec<Value>),
    BoolEq(Atom, Atom),
    BoolLe(Atom, Atom),
    BoolLt(Atom, Atom),
    BoolUnequal(Atom, Atom),
    ArrayBoolOr(Vec<Atom>, Atom),
    SetInRange(Atom, i64, i64),
}

// A coefficient and its atom.
#[derive(Clone, Copy, Debug, PartialEq, Eq)]
pub struct Product {
    pub coefficient: i64,
    pub atom: Atom,
}

// An argument by its sort: an atom for a variable, a number, a list or set of numbers, a list of atoms, a sum.
#[derive(Debug, Drop)]
pub enum Argument {
    One(Atom),
    Number(i64),
    Numbers(Vec<i64>),
    Many(Vec<Atom>),
    Sum(Vec<Product>),
}

// A builtin with a code, of arguments by their sorts.
#[derive(Debug, Drop)]
pub struct Call {
    pub code: Code,
    pub arguments: Vec<Argument>,
}

// A variable of a model, by its type and bounds; a Boolean one has the bounds 0 and 1.
#[derive(Clone, Copy, Debug, PartialEq, Eq)]
pub struct ModelVariable {
    pub is_boolean: bool,
    pub bounds: Bounds,
}

// A FlatZinc text with parameters and arrays put in.
#[derive(Debug, Drop)]
pub struct FlatZinc {
    pub variables: Vec<Declared>,
    pub constraints: Vec<Item>,
}

impl Atom {
    // The number of a variable; 0 of an atom that is none.
    pub fn number(self) -> usize
        ensures { result ≡ number_of self }
    {
        match self {
            Atom::Variable(v) => v,
            Atom::Whole(_) => 0,
            Atom::Truth(_) => 0,
        }
    }
}

impl ModelVariable {
    // Its bounds, 0 and 1 of a Boolean one.
    pub fn limits(self) -> Bounds
        ensures { result ≡ limits self }
    {
        if self.is_boolean {
            return Bounds { lower: 0, upper: 1 };
        }
        self.bounds
    }
}
