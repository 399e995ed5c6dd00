// A file that was read: its words, and what a message says of a place in it.
use answers::named::{Behind, Constraint, Name};
use answers::refusals::Place;
use labels::named::{names_of, token_at};
use labels::position::position_of;
use labels::written::place_of_word;
use std::alloc::{AllocError, Global};
use tokens::Span;
use words::fault::{Fault, Refusal};
use words::kind::Kind;
use words::word::Word;

// A file: its name, its text where it is one, and the words that it says.
#[derive(Clone, Copy)]
pub struct Source<'n, 'a> {
    pub name: &'n str,
    pub text: Option<&'a [u8]>,
    pub words: &'a [u32],
}

// Whether a fault is in a text, its place a byte.
fn is_of_text(fault: Fault) -> bool {
    matches!(
        fault,
        Fault::BreaksGrammar | Fault::WrongName | Fault::OutsideRange
    )
}

// Whether a fault has no place.
fn is_nowhere(fault: Fault) -> bool {
    matches!(
        fault,
        Fault::TooManyWords
            | Fault::WrongValueCount
            | Fault::OutputTooShort
            | Fault::TooManyLists
            | Fault::TooManyBits
            | Fault::FormTooLarge
            | Fault::NoSuchVariable
    )
}

// The place of a byte in a text.
fn in_text(text: &[u8], byte: usize) -> Place<'_> {
    let position = position_of(text, byte);
    Place::Text {
        line: position.line,
        column: position.column,
        token: token_at(text, byte),
    }
}

// The place of a refusal.
pub fn place_of<'a>(source: &Source<'_, 'a>, refusal: Refusal) -> Place<'a> {
    let at = refusal.place;
    if let Some(text) = source.text {
        if is_of_text(refusal.fault) {
            return in_text(text, at);
        }
        if !is_nowhere(refusal.fault) && at < source.words.len() {
            return in_text(text, place_of_word(text, at));
        }
    }
    if is_nowhere(refusal.fault) {
        return Place::Nowhere;
    }
    if refusal.fault == Fault::NotABit {
        return Place::Bit;
    }
    Place::Word
}

// The names of the variables of a text.
pub fn texts_of<'a>(alloc: Global, text: &'a [u8]) -> Result<Vec<&'a str>, AllocError> {
    let spans: Vec<Span> = names_of(alloc, text)?;
    let mut names = Vec::new(alloc);
    for span in &spans {
        names.push(str_of(text, *span))?;
    }
    Ok(names)
}

// The bytes of a token, which are ASCII.
fn str_of(text: &[u8], span: Span) -> &str {
    match std::str::from_utf8(token_at(text, span.place)) {
        Ok(name) => name,
        Err(_) => "",
    }
}

pub fn named<'a>(alloc: Global, texts: &[&'a str]) -> Result<Vec<Name<'a>>, AllocError> {
    let mut names = Vec::new(alloc);
    for text in texts {
        names.push(Name::Given(*text))?;
    }
    Ok(names)
}

// The place of the head of a constraint among the words of a model.
fn head_of(words: &[u32], number: usize) -> Option<usize> {
    let mut left = number;
    for (i, &w) in words.iter().enumerate() {
        if Word::from(w).is(Kind::Constraint) {
            if left == 0 {
                return Some(i);
            }
            left -= 1;
        }
    }
    None
}

// The names of the builtins, by code.
const BUILTINS: [&str; 39] = [
    "int_eq",
    "int_le",
    "int_lt",
    "int_ne",
    "int_le_reif",
    "int_plus",
    "int_times",
    "int_abs",
    "int_max",
    "int_lin_eq",
    "int_lin_le",
    "int_lin_ne",
    "int_lin_eq_reif",
    "int_eq_reif",
    "int_lin_le_reif",
    "bool2int",
    "bool_not",
    "bool_and",
    "bool_or",
    "bool_xor",
    "bool_clause",
    "array_bool_and",
    "array_bool_xor",
    "array_int_element",
    "array_var_int_element",
    "array_int_maximum",
    "set_in",
    "set_in_reif",
    "int_min",
    "int_lt_reif",
    "int_ne_reif",
    "int_lin_ne_reif",
    "array_int_minimum",
    "bool_eq_reif",
    "bool_le_reif",
    "bool_lt_reif",
    "int_div",
    "int_mod",
    "int_pow",
];

// The name of the builtin of a code.
fn builtin_of(code: usize) -> &'static str {
    if code == 0 {
        return "?";
    }
    match BUILTINS.get(code - 1) {
        Some(name) => *name,
        None => "?",
    }
}

// A constraint, where it stands in a model of one text or of words.
pub fn constraint_of<'a>(source: &Source<'_, 'a>, number: usize) -> Constraint<'a> {
    let Some(head) = head_of(source.words, number) else {
        return Constraint {
            number,
            behind: Behind::Nothing,
        };
    };
    let builtin = builtin_of(Word::at(source.words, head).payload());
    let behind = match source.text {
        None => Behind::Builtin(builtin),
        Some(text) => Behind::Line(builtin, position_of(text, place_of_word(text, head)).line),
    };
    Constraint { number, behind }
}
