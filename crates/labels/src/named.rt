// The names of a text's variables, and the token at a place.
ghost use Rattle.std.specs.Prelude.{◌≡◌, ◌++◌, [], ◌∷◌, IfOk, OnOk};
ghost use Rattle.integers.specs.Choice.{◌if◌else◌};
ghost use Rattle.labels.specs.Named.{first_spelling, names_of, spelled};

use std::alloc::{AllocError, Global};
use tokens::sort::Sort;
use tokens::{Span, next_token};

// A token after others, where it follows a colon.
fn add(names: &mut Vec<Span>, after_colon: bool, token: Span) -> Result<(), AllocError>
    ensures { OnOk result (names.new.items ≡ names.old.items ++ (token ∷ [] if after_colon else [])) }
{
    if after_colon {
        names.push(token)?;
        return Ok(());
    }
    Ok(())
}

// The tokens that are the names of the variables of a text, in their order.
pub fn names_of(alloc: Global, text: &[u8]) -> Result<Vec<Span>, AllocError>
    ensures { IfOk result (λ spans. spelled text.now spans.items ≡ names_of text.now) }
{
    let mut names = Vec::new(alloc);
    let mut at = 0;
    let mut after_colon = false;
    // no `for`: a token's length is read and not counted
    while let Some(token) = next_token(text, at) {
        add(&mut names, after_colon, token)?;
        after_colon = token.sort == Sort::Colon;
        at = token.stop;
    }
    Ok(names)
}

// The bytes of the first token from a place on; none at the end of the text.
pub fn token_at(text: &[u8], place: usize) -> &[u8]
    ensures { result.now ≡ first_spelling text.now place }
{
    if text.len() < place {
        return &[];
    }
    match next_token(text, place) {
        None => &[],
        Some(token) => token.bytes(text),
    }
}
