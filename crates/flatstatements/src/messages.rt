// What is wrong with a statement, in words.
use crate::front::{behind_word, name_at};
use flattokens::{Token, spelled};
use std::alloc::{AllocError, Global};

// The token at a place as it is spelled; behind the last one stands the semicolon.
fn found(alloc: Global, tokens: &[Token], at: usize) -> Result<String, AllocError> {
    if tokens.len() <= at {
        return String::from_str(alloc, ";");
    }
    spelled(alloc, &tokens[at])
}

// That something else stands at a place than a sign or word.
pub(crate) fn expected(
    alloc: Global,
    wanted: &str,
    tokens: &[Token],
    at: usize,
) -> Result<String, AllocError> {
    let text = found(alloc, tokens, at)?;
    format!(in alloc; "\"{wanted}\" expected, not \"{text}\"")
}

// That what stands at a place is not what is due there.
pub(crate) fn instead(
    alloc: Global,
    tokens: &[Token],
    at: usize,
    due: &str,
) -> Result<String, AllocError> {
    let text = found(alloc, tokens, at)?;
    format!(in alloc; "\"{text}\" {due}")
}

// A fault, word for word.
pub(crate) fn plain(alloc: Global, text: &str) -> Result<String, AllocError> {
    String::from_str(alloc, text)
}

// That no literal stands at a place.
pub(crate) fn no_literal(alloc: Global, tokens: &[Token], at: usize) -> Result<String, AllocError> {
    instead(
        alloc,
        tokens,
        at,
        "is no whole number, Boolean, list, set or name",
    )
}

// The name that a variable without bounds has, behind its type and the colon.
fn unbounded(alloc: Global, tokens: &[Token], at: usize) -> Result<String, AllocError> {
    let name = found(alloc, tokens, at)?;
    format!(in alloc; "{name} has no bounds: give it some in the model")
}

// Why no domain stands at a place.
pub(crate) fn no_domain(alloc: Global, tokens: &[Token], at: usize) -> Result<String, AllocError> {
    if behind_word(tokens, at, b"float").is_some()
        || matches!(tokens.get(at), Some(Token::Float(_)))
    {
        return plain(alloc, "a float variable");
    }
    if behind_word(tokens, at, b"set").is_some() {
        return plain(alloc, "a set variable");
    }
    if behind_word(tokens, at, b"int").is_some()
        && name_at(tokens, at.saturating_add(2)).is_some()
    {
        return unbounded(alloc, tokens, at.saturating_add(2));
    }
    plain(alloc, "a domain that is no range, set of numbers, or bool")
}
