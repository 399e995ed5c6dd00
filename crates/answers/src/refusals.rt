// What a refusal says, of a file of a name.
ghost use Rattle.std.specs.Prelude.{◌≡◌, ◌++◌, IfOk, OnOk, string_bytes};
ghost use Rattle.answers.specs.Refused.{front_text, end_text, front_fields, place_text, place_fields, refusal_text, refusal_json, refusal_said};
ghost use Rattle.answers.specs.Said.{Says};

use crate::escapes::{put_json, put_shown};
use crate::faults::fault_text;
use crate::{Answer, Style, complained, printed, put};
use std::alloc::{AllocError, Global};
use words::fault::Refusal;

// What the place of a refusal is.
#[derive(Clone, Copy, Debug)]
pub enum Place<'a> {
    // none
    Nowhere,
    // a word
    Word,
    // a bit
    Bit,
    // a line and a column of a text, both counted from 1, and the token there, empty at the end of the text
    Text {
        line: usize,
        column: usize,
        token: &'a [u8],
    },
}

// The place in a sentence.
fn put_place(alloc: Global, out: &mut Vec<u8>, at: usize, place: &Place) -> Result<(), AllocError>
    ensures { OnOk result (out.new.items ≡ out.old.items ++ place_text at place.now) }
{
    match *place {
        Place::Nowhere => Ok(()),
        Place::Word => {
            let text = format!(in alloc; " at word {at}")?;
            put(out, text.as_bytes())
        }
        Place::Bit => {
            let text = format!(in alloc; " at bit {at}")?;
            put(out, text.as_bytes())
        }
        Place::Text {
            line,
            column,
            token,
        } => {
            let text = format!(in alloc; " at line {line}, column {column}")?;
            put(out, text.as_bytes())?;
            put_shown(out, token)
        }
    }
}

// The fields of the place in an object of JSON.
fn put_fields(alloc: Global, out: &mut Vec<u8>, place: &Place) -> Result<(), AllocError>
    ensures { OnOk result (out.new.items ≡ out.old.items ++ place_fields place.now) }
{
    match *place {
        Place::Nowhere => Ok(()),
        Place::Word => Ok(()),
        Place::Bit => Ok(()),
        Place::Text {
            line,
            column,
            token,
        } => {
            let text = format!(in alloc; ",\"line\":{line},\"column\":{column},\"token\":")?;
            put(out, text.as_bytes())?;
            put_json(out, token)
        }
    }
}

// What stands before the place, and after it, in a sentence.
#[tactic(auto, unfolding(crate::specs::Refused::front_text))]
fn front_text(alloc: Global, name: &str, refusal: Refusal) -> Result<String, AllocError>
    ensures { IfOk result (λ s. string_bytes s ≡ front_text name.now refusal) }
{
    let number = refusal.fault.number();
    format!(in alloc; "pearrummy: {name}: fault {number}")
}

#[tactic(auto, unfolding(crate::specs::Refused::end_text))]
fn end_text(alloc: Global, refusal: Refusal) -> Result<String, AllocError>
    ensures { IfOk result (λ s. string_bytes s ≡ end_text refusal) }
{
    let text = fault_text(refusal.fault);
    format!(in alloc; ": {text}\n")
}

// The fields before those of the place.
#[tactic(auto, unfolding(crate::specs::Refused::front_fields))]
fn front_fields(alloc: Global, refusal: Refusal) -> Result<String, AllocError>
    ensures { IfOk result (λ s. string_bytes s ≡ front_fields refusal) }
{
    let number = refusal.fault.number();
    let at = refusal.place;
    let text = fault_text(refusal.fault);
    format!(in alloc;
        "{{\"answer\":\"refused\",\"fault\":{number},\"place\":{at},\"text\":\"{text}\""
    )
}

// A refusal in a sentence.
fn refusal_text(
    alloc: Global,
    name: &str,
    refusal: Refusal,
    place: &Place,
) -> Result<Vec<u8>, AllocError>
    ensures { IfOk result (λ v. v.items ≡ refusal_text name.now refusal place.now) }
{
    let front = front_text(alloc, name, refusal)?;
    let end = end_text(alloc, refusal)?;
    let mut out = front.into_bytes();
    put_place(alloc, &mut out, refusal.place, place)?;
    put(&mut out, end.as_bytes())?;
    Ok(out)
}

// A refusal as an object of JSON.
fn refusal_json(alloc: Global, refusal: Refusal, place: &Place) -> Result<Vec<u8>, AllocError>
    ensures { IfOk result (λ v. v.items ≡ refusal_json refusal place.now) }
{
    let front = front_fields(alloc, refusal)?;
    let mut out = front.into_bytes();
    put_fields(alloc, &mut out, place)?;
    put(&mut out, b"}\n")?;
    Ok(out)
}

// The answer that a file of a name is refused.
pub fn told_refusal(
    alloc: Global,
    name: &str,
    refusal: Refusal,
    place: &Place,
    style: Style,
) -> Result<Answer, AllocError>
    ensures { IfOk result (Says (refusal_said style name.now refusal place.now)) }
{
    match style {
        Style::Text => {
            let text = refusal_text(alloc, name, refusal, place)?;
            Ok(complained(alloc, text, 2))
        }
        Style::Json => {
            let text = refusal_json(alloc, refusal, place)?;
            Ok(printed(alloc, text, 2))
        }
    }
}
