// Tokens and bytes as messages say them.
use crate::Token;
use std::alloc::{AllocError, Global};

// Bytes as text of one line; what is no printable ASCII is a question mark.
fn shown(alloc: Global, bytes: &[u8]) -> Result<String, AllocError> {
    let mut text = String::new(alloc);
    for &b in bytes {
        let c = if matches!(b, b' '..=b'~') {
            char::from(b)
        } else {
            '?'
        };
        text.push(c)?;
    }
    Ok(text)
}

// A token as it is spelled.
pub fn spelled(alloc: Global, token: &Token) -> Result<String, AllocError> {
    match token {
        Token::Name(bytes) | Token::Float(bytes) | Token::Text(bytes) => shown(alloc, bytes),
        Token::Number(n) => format!(in alloc; "{n}"),
        Token::Dots => String::from_str(alloc, ".."),
        Token::Colons => String::from_str(alloc, "::"),
        Token::Sign(b) => shown(alloc, &[*b]),
    }
}

// That a byte begins no token.
pub(crate) fn no_token(alloc: Global, b: u8) -> Result<String, AllocError> {
    let text = shown(alloc, &[b])?;
    format!(in alloc; "\"{text}\" begins no token")
}

// That a number has so many digits.
pub(crate) fn too_long(alloc: Global, digits: usize) -> Result<String, AllocError> {
    format!(in alloc; "a number of {digits} digits, the range is -134217727 to 134217727")
}

// That a text in quotes does not end.
pub(crate) fn open_text(alloc: Global) -> Result<String, AllocError> {
    String::from_str(alloc, "a text that is not closed")
}

// That the file ends within a statement.
pub(crate) fn within_statement(alloc: Global) -> Result<String, AllocError> {
    String::from_str(alloc, "\";\" expected, not \"\"")
}
