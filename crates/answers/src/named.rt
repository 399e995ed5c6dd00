// A variable and a constraint in an answer.
ghost use Rattle.std.specs.Prelude.{◌≡◌, ◌++◌, IfOk, OnOk, string_bytes};
ghost use Rattle.answers.specs.Named.{variable_text, name_field, constraint_text, constraint_fields, line_text, line_fields};

use crate::escapes::put_name;
use crate::put;
use std::alloc::{AllocError, Global};

// What a variable is called.
#[derive(Clone, Copy, Debug)]
pub enum Name<'a> {
    // its name in a text
    Given(&'a str),
    // none, as an auxiliary of a text has
    Auxiliary,
    // none, where the words come from no text
    Unnamed,
}

// A variable: its number and what it is called.
#[derive(Clone, Copy, Debug)]
pub struct Variable<'a> {
    pub number: usize,
    pub name: Name<'a>,
}

impl<'a> Variable<'a> {
    // A variable by its name, or by # or v and its number.
    pub fn text(&self, alloc: Global) -> Result<String, AllocError>
        ensures { IfOk result (λ s. string_bytes s ≡ variable_text self.now) }
    {
        let number = self.number;
        match self.name {
            Name::Given(name) => format!(in alloc; "{name}"),
            Name::Auxiliary => format!(in alloc; "#{number}"),
            Name::Unnamed => format!(in alloc; "v{number}"),
        }
    }

    // The field of its name, where it has one.
    pub fn put_field(&self, out: &mut Vec<u8>) -> Result<(), AllocError>
        ensures { OnOk result (out.new.items ≡ out.old.items ++ name_field self.now) }
    {
        match self.name {
            Name::Given(name) => {
                put(out, b"\"name\":")?;
                put_name(out, name.as_bytes())?;
                put(out, b",")
            }
            Name::Auxiliary => Ok(()),
            Name::Unnamed => Ok(()),
        }
    }
}

// Where a constraint stands, as far as that is known: its builtin, and its line in a text.
#[derive(Clone, Copy, Debug)]
pub enum Behind<'a> {
    Nothing,
    Builtin(&'a str),
    Line(&'a str, usize),
}

// A constraint: its number and where it stands.
#[derive(Clone, Copy, Debug)]
pub struct Constraint<'a> {
    pub number: usize,
    pub behind: Behind<'a>,
}

impl<'a> Constraint<'a> {
    // A constraint in a sentence.
    pub fn text(&self, alloc: Global) -> Result<String, AllocError>
        ensures { IfOk result (λ s. string_bytes s ≡ constraint_text self.now) }
    {
        let number = self.number;
        match self.behind {
            Behind::Nothing => format!(in alloc; "constraint {number}"),
            Behind::Builtin(builtin) => format!(in alloc; "constraint {number} ({builtin})"),
            Behind::Line(builtin, line) => line_text(alloc, number, builtin, line),
        }
    }

    // Its fields in an object of JSON.
    pub fn fields(&self, alloc: Global) -> Result<String, AllocError>
        ensures { IfOk result (λ s. string_bytes s ≡ constraint_fields self.now) }
    {
        let number = self.number;
        match self.behind {
            Behind::Nothing => format!(in alloc; "\"constraint\":{number}"),
            Behind::Builtin(builtin) => {
                format!(in alloc; "\"constraint\":{number},\"builtin\":\"{builtin}\"")
            }
            Behind::Line(builtin, line) => line_fields(alloc, number, builtin, line),
        }
    }
}

// A constraint with its builtin and its line, in a sentence.
#[tactic(auto, unfolding(crate::specs::Named::line_text))]
fn line_text(alloc: Global, number: usize, builtin: &str, line: usize) -> Result<String, AllocError>
    ensures { IfOk result (λ s. string_bytes s ≡ line_text number builtin.now line) }
{
    format!(in alloc; "constraint {number} ({builtin}, line {line})")
}

// The same fields in an object of JSON.
#[tactic(auto, unfolding(crate::specs::Named::line_fields))]
fn line_fields(
    alloc: Global,
    number: usize,
    builtin: &str,
    line: usize,
) -> Result<String, AllocError>
    ensures { IfOk result (λ s. string_bytes s ≡ line_fields number builtin.now line) }
{
    format!(in alloc; "\"constraint\":{number},\"builtin\":\"{builtin}\",\"line\":{line}")
}
