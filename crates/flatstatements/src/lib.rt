// The statements of a FlatZinc text: what stands between two semicolons.
#![tactic(auto)]

mod expressions;
mod front;
mod messages;
mod notes;
mod statements;

use flattokens::Token;
pub use statements::read_statement;

// A number, a Boolean, a name, a float.
#[derive(Clone, Copy, Debug)]
pub enum Literal<'a> {
    Number(i64),
    Truth(bool),
    Name(&'a [u8]),
    Float(&'a [u8]),
}

// A literal, a set in braces, a range.
#[derive(Debug, Drop)]
pub enum Element<'a> {
    Literal(Literal<'a>),
    Members(Vec<i64>),
    Range(i64, i64),
}

// An element, or a list of them in brackets.
#[derive(Debug, Drop)]
pub enum Expression<'a> {
    One(Element<'a>),
    Many(Vec<Element<'a>>),
}

// bool, LO..HI, {N,..}; int and others are no domains.
#[derive(Debug, Drop)]
pub enum Range {
    Bool,
    Between(i64, i64),
    Members(Vec<i64>),
}

// What a solve item asks for.
#[derive(Clone, Copy, Debug)]
pub enum Goal<'a> {
    Satisfy,
    Minimize(Literal<'a>),
    Maximize(Literal<'a>),
}

// A statement; of what is read over, the tokens: a predicate's, those before the colon of a parameter, annotations.
#[derive(Debug, Drop)]
pub enum Statement<'a> {
    Predicate(Vec<Token<'a>>),
    Parameter {
        kind: Vec<Token<'a>>,
        name: &'a [u8],
        notes: Vec<Token<'a>>,
        value: Expression<'a>,
    },
    Variable {
        range: Range,
        name: &'a [u8],
        notes: Vec<Token<'a>>,
        given: Option<Literal<'a>>,
    },
    Constraint {
        builtin: &'a [u8],
        arguments: Vec<Expression<'a>>,
        notes: Vec<Token<'a>>,
    },
    Solve {
        notes: Vec<Token<'a>>,
        goal: Goal<'a>,
    },
}
