// What judge, fill and reason say.
ghost use Rattle.std.specs.Prelude.{◌≡◌, IfOk, string_bytes};
ghost use Rattle.answers.specs.Judged.{answer_field, sentence_end, bounds_text, bounds_fields, outside_front, outside_text, outside_json, fails_text, fails_fields, reason_text, reason_json, holds_said, no_row_said, outside_said, false_said, false_row_said, reason_said};
ghost use Rattle.answers.specs.Said.{Says};

use crate::named::{Constraint, Variable};
use crate::{Answer, Style, printed, put};
use std::alloc::{AllocError, Global};

// The answer that values hold.
pub fn told_holds(alloc: Global, style: Style) -> Result<Answer, AllocError>
    ensures { IfOk result (Says (holds_said style)) }
{
    let line = match style {
        Style::Text => Vec::from_slice(alloc, b"holds\n")?,
        Style::Json => Vec::from_slice(alloc, b"{\"answer\":\"holds\"}\n")?,
    };
    Ok(printed(alloc, line, 0))
}

// The answer that no row fails.
pub fn told_no_row(alloc: Global, style: Style) -> Result<Answer, AllocError>
    ensures { IfOk result (Says (no_row_said style)) }
{
    let line = match style {
        Style::Text => Vec::from_slice(alloc, b"no row fails\n")?,
        Style::Json => Vec::from_slice(alloc, b"{\"answer\":\"none\"}\n")?,
    };
    Ok(printed(alloc, line, 0))
}

// A value of a variable that is outside its bounds.
#[derive(Clone, Copy, Debug)]
pub struct Outside<'a> {
    pub variable: Variable<'a>,
    pub value: i64,
    pub lower: i64,
    pub upper: i64,
}

// The value and the bounds, in a sentence.
#[tactic(auto, unfolding(crate::specs::Judged::bounds_text))]
fn bounds_text(alloc: Global, value: i64, lower: i64, upper: i64) -> Result<String, AllocError>
    ensures { IfOk result (λ s. string_bytes s ≡ bounds_text value lower upper) }
{
    format!(in alloc; " is out of bounds: {value} is not in {lower}..{upper}\n")
}

// The same fields in an object of JSON.
#[tactic(auto, unfolding(crate::specs::Judged::bounds_fields))]
fn bounds_fields(alloc: Global, value: i64, lower: i64, upper: i64) -> Result<String, AllocError>
    ensures { IfOk result (λ s. string_bytes s ≡ bounds_fields value lower upper) }
{
    format!(in alloc; "\"value\":{value},\"lower\":{lower},\"upper\":{upper}}}\n")
}

// The front of that object, with the variable's number.
#[tactic(auto, unfolding(crate::specs::Judged::outside_front))]
fn outside_front(alloc: Global, number: usize) -> Result<String, AllocError>
    ensures { IfOk result (λ s. string_bytes s ≡ outside_front number) }
{
    format!(in alloc; "{{\"answer\":\"out of bounds\",\"variable\":{number},")
}

// A value outside its variable's bounds, in a sentence.
fn outside_text(alloc: Global, outside: &Outside) -> Result<Vec<u8>, AllocError>
    ensures { IfOk result (λ v. v.items ≡ outside_text outside.now) }
{
    let name = outside.variable.text(alloc)?;
    let rest = bounds_text(alloc, outside.value, outside.lower, outside.upper)?;
    let mut out = name.into_bytes();
    put(&mut out, rest.as_bytes())?;
    Ok(out)
}

// The same as an object of JSON, before the fields of the value and the bounds.
fn outside_json(alloc: Global, variable: &Variable, rest: &str) -> Result<Vec<u8>, AllocError>
    ensures { IfOk result (λ v. v.items ≡ outside_json variable.now rest.now) }
{
    let front = outside_front(alloc, variable.number)?;
    let mut out = front.into_bytes();
    variable.put_field(&mut out)?;
    put(&mut out, rest.as_bytes())?;
    Ok(out)
}

// The answer that a value is outside its variable's bounds.
pub fn told_outside(alloc: Global, outside: &Outside, style: Style) -> Result<Answer, AllocError>
    ensures { IfOk result (Says (outside_said style outside.now)) }
{
    match style {
        Style::Text => {
            let text = outside_text(alloc, outside)?;
            Ok(printed(alloc, text, 1))
        }
        Style::Json => {
            let rest = bounds_fields(alloc, outside.value, outside.lower, outside.upper)?;
            let text = outside_json(alloc, &outside.variable, rest.as_str())?;
            Ok(printed(alloc, text, 1))
        }
    }
}

// The answer that a constraint is false.
pub fn told_false(
    alloc: Global,
    constraint: &Constraint,
    style: Style,
) -> Result<Answer, AllocError>
    ensures { IfOk result (Says (false_said style constraint.now)) }
{
    let mut out = Vec::new(alloc);
    match style {
        Style::Text => {
            let text = constraint.text(alloc)?;
            put(&mut out, text.as_bytes())?;
            put(&mut out, b" is false\n")?;
        }
        Style::Json => {
            let fields = constraint.fields(alloc)?;
            put(&mut out, b"{\"answer\":\"false\",")?;
            put(&mut out, fields.as_bytes())?;
            put(&mut out, b"}\n")?;
        }
    }
    Ok(printed(alloc, out, 1))
}

// The answer that a row is false.
pub fn told_false_row(alloc: Global, row: usize, style: Style) -> Result<Answer, AllocError>
    ensures { IfOk result (Says (false_row_said style row)) }
{
    let line = match style {
        Style::Text => format!(in alloc; "row {row} is false\n")?,
        Style::Json => format!(in alloc; "{{\"answer\":\"false\",\"row\":{row}}}\n")?,
    };
    Ok(printed(alloc, line.into_bytes(), 1))
}

// What stands before the constraint: in a sentence, and in an object of JSON.
#[tactic(auto, unfolding(crate::specs::Judged::fails_text))]
fn fails_text(alloc: Global, row: usize) -> Result<String, AllocError>
    ensures { IfOk result (λ s. string_bytes s ≡ fails_text row) }
{
    format!(in alloc; "row {row} fails: ")
}

#[tactic(auto, unfolding(crate::specs::Judged::fails_fields))]
fn fails_fields(alloc: Global, row: usize, holds: bool) -> Result<String, AllocError>
    ensures { IfOk result (λ s. string_bytes s ≡ fails_fields row holds) }
{
    let answer = answer_field(holds);
    format!(in alloc; "{{\"answer\":\"{answer}\",\"row\":{row},")
}

// Why a row fails, in a sentence.
fn reason_text(
    alloc: Global,
    row: usize,
    constraint: &Constraint,
    holds: bool,
) -> Result<Vec<u8>, AllocError>
    ensures { IfOk result (λ v. v.items ≡ reason_text row constraint.now holds) }
{
    let front = fails_text(alloc, row)?;
    let text = constraint.text(alloc)?;
    let mut out = front.into_bytes();
    put(&mut out, text.as_bytes())?;
    put(&mut out, sentence_end(holds))?;
    Ok(out)
}

// The same as an object of JSON.
fn reason_json(
    alloc: Global,
    row: usize,
    constraint: &Constraint,
    holds: bool,
) -> Result<Vec<u8>, AllocError>
    ensures { IfOk result (λ v. v.items ≡ reason_json row constraint.now holds) }
{
    let front = fails_fields(alloc, row, holds)?;
    let fields = constraint.fields(alloc)?;
    let mut out = front.into_bytes();
    put(&mut out, fields.as_bytes())?;
    put(&mut out, b"}\n")?;
    Ok(out)
}

// The answer that a row fails, with the constraint behind it, which is true or not.
pub fn told_reason(
    alloc: Global,
    row: usize,
    constraint: &Constraint,
    holds: bool,
    style: Style,
) -> Result<Answer, AllocError>
    ensures { IfOk result (Says (reason_said style row constraint.now holds)) }
{
    match style {
        Style::Text => {
            let text = reason_text(alloc, row, constraint, holds)?;
            Ok(printed(alloc, text, 1))
        }
        Style::Json => {
            let text = reason_json(alloc, row, constraint, holds)?;
            Ok(printed(alloc, text, 1))
        }
    }
}

// What stands after a constraint whose row fails.
fn sentence_end(holds: bool) -> &'static [u8]
    ensures { result.now ≡ sentence_end holds }
{
    if holds {
        return b" is true, but auxiliaries in the row are wrong\n";
    }
    b" is false\n"
}

fn answer_field(holds: bool) -> &'static str
    ensures { result.now ≡ answer_field holds }
{
    if holds {
        return "auxiliaries";
    }
    "builtin"
}
