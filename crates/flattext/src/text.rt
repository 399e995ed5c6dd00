// The whole text.
ghost use Rattle.std.specs.Prelude.{◌≡◌, ◌++◌, map, option_map, IfOk, OnOk, codes};
ghost use Rattle.std.specs.Fmt.{decimal};
ghost use Rattle.flatplaces.specs.Seen.{place};
ghost use Rattle.flattext.specs.SeenCalled.{called};
ghost use Rattle.flattext.specs.ModelText.{place_text, domain_text, variable_line, head_text, call_line, variable_lines, call_lines, model_text};

use crate::arguments::put_arguments;
use crate::builtins::builtin_name;
use flatplaces::labels::put_number;
use flatplaces::places::Place;
use flatzinc::{Call, ModelVariable};
use models::code::Code;
use std::alloc::{AllocError, Global};

// What a variable is called: its name in the text, the model's names for it, each behind a blank, and its place in the model.
#[derive(Debug, Drop)]
pub struct Called {
    pub name: Vec<u8>,
    pub labels: Vec<u8>,
    pub place: Option<Place>,
}

impl Called {
    // With a name of the model more.
    pub fn label(&mut self, name: &[u8]) -> Result<(), AllocError>
        ensures { OnOk result (called self.new ≡ record (called self.old) { labels = self.old.labels.items ++ codes " " ++ name.now }) }
    {
        self.labels.push(b' ')?;
        self.labels.extend_from_slice(name)
    }
}

// Puts a count behind a text.
pub fn put_decimal(alloc: Global, out: &mut Vec<u8>, n: usize) -> Result<(), AllocError>
    ensures { OnOk result (out.new.items ≡ out.old.items ++ decimal n) }
{
    let digits = format!(in alloc; "{n}")?;
    out.extend_from_slice(digits.as_bytes())
}

// Puts a place as a comment behind a line, if there is one, and ends the line.
#[tactic(auto, unfolding(crate::specs::ModelText::place_text))]
fn put_place(alloc: Global, out: &mut Vec<u8>, of: Option<&Place>) -> Result<(), AllocError>
    ensures { OnOk result (out.new.items ≡ out.old.items ++ place_text (option_map (λ p. place p.now) of.entry)) }
{
    if let Some(place) = of {
        out.extend_from_slice(b" % ")?;
        out.extend_from_slice(&place.file)?;
        out.push(b':')?;
        put_decimal(alloc, out, place.line)?;
    }
    Ok(out.push(b'\n')?)
}

// Puts what a variable may be behind a text.
#[tactic(auto, unfolding(crate::specs::ModelText::domain_text))]
fn put_domain(alloc: Global, out: &mut Vec<u8>, variable: &ModelVariable) -> Result<(), AllocError>
    ensures { OnOk result (out.new.items ≡ out.old.items ++ domain_text variable.now) }
{
    if variable.is_boolean {
        return out.extend_from_slice(b"bool");
    }
    put_number(alloc, out, variable.bounds.lower)?;
    out.extend_from_slice(b"..")?;
    put_number(alloc, out, variable.bounds.upper)
}

// Puts the line of the k-th variable behind a text.
#[tactic(auto, unfolding(crate::specs::ModelText::variable_line))]
fn put_variable(
    alloc: Global,
    out: &mut Vec<u8>,
    k: usize,
    variable: &ModelVariable,
    of: &Called,
) -> Result<(), AllocError>
    ensures { OnOk result (out.new.items ≡ out.old.items ++ variable_line k variable.now (called of.now)) }
{
    out.extend_from_slice(b"var ")?;
    put_domain(alloc, out, variable)?;
    out.extend_from_slice(b": ")?;
    out.extend_from_slice(&of.name)?;
    out.extend_from_slice(b"; % ")?;
    put_decimal(alloc, out, k)?;
    out.extend_from_slice(&of.labels)?;
    put_place(alloc, out, of.place.as_ref())
}

// Puts the lines of variables behind a text.
fn put_variables(
    alloc: Global,
    out: &mut Vec<u8>,
    variables: &[ModelVariable],
    names: &[Called],
) -> Result<(), AllocError>
    ensures { OnOk result (out.new.items ≡ out.old.items ++ variable_lines (map called names.now) 0 variables.now) }
{
    let nobody = Called {
        name: Vec::new(alloc),
        labels: Vec::new(alloc),
        place: None,
    };
    for (k, variable) in variables.iter().enumerate() {
        put_variable(alloc, out, k, variable, names.get(k).unwrap_or(&nobody))?;
    }
    Ok(())
}

// Puts what stands before a constraint's arguments behind a text.
#[tactic(auto, unfolding(crate::specs::ModelText::head_text))]
fn put_head(out: &mut Vec<u8>, code: Code) -> Result<(), AllocError>
    ensures { OnOk result (out.new.items ≡ out.old.items ++ head_text code) }
{
    out.extend_from_slice(b"constraint ")?;
    out.extend_from_slice(builtin_name(code))?;
    Ok(out.push(b'(')?)
}

// Puts the line of a constraint behind a text.
#[tactic(auto, unfolding(crate::specs::ModelText::call_line))]
fn put_call(
    alloc: Global,
    out: &mut Vec<u8>,
    names: &[Called],
    call: &Call,
    of: Option<&Place>,
) -> Result<(), AllocError>
    ensures { OnOk result (out.new.items ≡ out.old.items ++ call_line (map called names.now) call.now (option_map (λ p. place p.now) of.entry)) }
{
    put_head(out, call.code)?;
    put_arguments(alloc, out, names, call)?;
    out.extend_from_slice(b");")?;
    put_place(alloc, out, of)
}

// Puts the lines of constraints behind a text.
fn put_calls(
    alloc: Global,
    out: &mut Vec<u8>,
    names: &[Called],
    calls: &[Call],
    places: &[Option<Place>],
) -> Result<(), AllocError>
    ensures { OnOk result (out.new.items ≡ out.old.items ++ call_lines (map called names.now) (map (option_map place) places.now) 0 calls.now) }
{
    for (k, call) in calls.iter().enumerate() {
        let of = match places.get(k) {
            Some(Some(place)) => Some(place),
            _ => None,
        };
        put_call(alloc, out, names, call, of)?;
    }
    Ok(())
}

// The text of a model: its variables and what they are called, its constraints and their places.
pub fn text_of(
    alloc: Global,
    variables: &[ModelVariable],
    names: &[Called],
    calls: &[Call],
    places: &[Option<Place>],
) -> Result<Vec<u8>, AllocError>
    ensures { IfOk result (λ v. v.items ≡ model_text variables.now (map called names.now) calls.now (map (option_map place) places.now)) }
{
    let mut out = Vec::new(alloc);
    put_variables(alloc, &mut out, variables, names)?;
    put_calls(alloc, &mut out, names, calls, places)?;
    out.extend_from_slice(b"solve satisfy;\n")?;
    Ok(out)
}
