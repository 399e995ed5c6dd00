// What else annotations say: whether they name something, the index sets of an output array.
ghost use Rattle.std.specs.Prelude.{◌≡◌, map, IfOk};
ghost use Rattle.flattokens.specs.Token.{token};
ghost use Rattle.flatplaces.specs.Annotation.{is_name, is_noted, after_token, ended_set, index_sets};

use flattokens::Token;
use std::alloc::{AllocError, Global};

// An index set, by its ends.
#[derive(Clone, Copy, Debug, PartialEq, Eq)]
pub struct IndexSet {
    pub lower: i64,
    pub upper: i64,
}

// What a token stands in: before the index sets, between two of them, behind a lower end, after them.
#[derive(Clone, Copy, Debug)]
pub enum Stage {
    Before,
    Between,
    Behind(i64),
    After,
}

// Whether a token is a name.
#[tactic(auto, unfolding(crate::specs::Annotation::is_name))]
fn is_name(note: &Token<'_>, name: &[u8]) -> bool
    ensures { result ≡ is_name name.now (token note.now) }
{
    match note {
        Token::Name(bytes) => *bytes == name,
        _ => false,
    }
}

// Whether annotations name something, as output_var or var_is_introduced.
pub fn is_noted(notes: &[Token<'_>], name: &[u8]) -> bool
    ensures { result ≡ is_noted name.now (map token notes.now) }
{
    for note in notes {
        if is_name(note, name) {
            return true;
        }
    }
    false
}

// What the next token stands in.
#[tactic(auto, unfolding(crate::specs::Annotation::after_token))]
fn after_token(stage: Stage, note: &Token<'_>) -> Stage
    ensures { result ≡ after_token stage (token note.now) }
{
    match (stage, note) {
        (Stage::Before, Token::Name(name)) if *name == b"output_array".as_slice() => Stage::Between,
        (Stage::Between | Stage::Behind(_), Token::Sign(b')')) => Stage::After,
        (Stage::Between, Token::Number(n)) => Stage::Behind(*n),
        (Stage::Behind(_), Token::Number(_)) => Stage::Between,
        _ => stage,
    }
}

// The index set that a token ends.
#[tactic(auto, unfolding(crate::specs::Annotation::ended_set))]
fn ended_set(stage: Stage, note: &Token<'_>) -> Option<IndexSet>
    ensures { result ≡ ended_set stage (token note.now) }
{
    match (stage, note) {
        (Stage::Behind(lower), Token::Number(upper)) => Some(IndexSet {
            lower,
            upper: *upper,
        }),
        _ => None,
    }
}

// The index sets of output_array([..]), the last one first, as it changes fastest from element to element.
pub fn index_sets(alloc: Global, notes: &[Token<'_>]) -> Result<Vec<IndexSet>, AllocError>
    ensures { IfOk result (λ v. v.items ≡ index_sets (map token notes.now)) }
{
    let mut sets = Vec::new(alloc);
    let mut stage = Stage::Before;
    for note in notes {
        if let Some(set) = ended_set(stage, note) {
            sets.push(set)?;
        }
        stage = after_token(stage, note);
    }
    sets.reverse();
    Ok(sets)
}
