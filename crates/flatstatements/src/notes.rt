// Annotations, which are read over: each is "::" and a name, and perhaps brackets behind it.
ghost use Rattle.std.specs.Prelude.{◌≡◌, ◌≤◌, ◌^◌, map, length, take, drop, Some, None, IfOk};
ghost use Rattle.integers.specs.Choice.{◌if◌else◌};
ghost use Rattle.flatzinc.specs.Answer.{Gives};
ghost use Rattle.flattokens.specs.Token.{token as seen};
ghost use Rattle.flatstatements.specs.Reading.{is_name, opens, closes, out_of, step, may_end, IsShallow, notes_length, notes_at};

use crate::front::{is_colons, is_sign, rest_at};
use crate::messages::plain;
use flattokens::Token;
use flatzinc::trouble::Trouble;
use std::alloc::{AllocError, Global};

// How far annotations have come: between two, behind "::", behind a name, in a bracket that so many others are around.
#[derive(Clone, Copy, Debug)]
pub enum Place {
    Between,
    BehindColons,
    BehindName,
    Within(usize),
}

#[tactic(auto, unfolding(crate::specs::Reading::is_name))]
fn is_name(token: &Token) -> bool
    ensures { result ≡ is_name (seen token.now) }
{
    matches!(token, Token::Name(_))
}

#[tactic(auto, unfolding(crate::specs::Reading::opens))]
fn opens(token: &Token) -> bool
    ensures { result ≡ opens (seen token.now) }
{
    is_sign(token, b'(') || is_sign(token, b'[') || is_sign(token, b'{')
}

#[tactic(auto, unfolding(crate::specs::Reading::closes))]
fn closes(token: &Token) -> bool
    ensures { result ≡ closes (seen token.now) }
{
    is_sign(token, b')') || is_sign(token, b']') || is_sign(token, b'}')
}

// Behind a closing bracket that so many others are around.
#[tactic(auto, unfolding(crate::specs::Reading::out_of))]
fn out_of(depth: usize) -> Place
    ensures { result ≡ out_of depth }
{
    match depth {
        0 => Place::Between,
        _ => Place::Within(depth - 1),
    }
}

// Where the next token leads, if it belongs to the annotations.
#[tactic(auto, unfolding(crate::specs::Reading::step))]
fn step(place: Place, token: &Token) -> Option<Place>
    requires { IsShallow place (2 ^ 63) }
    ensures { result ≡ step place (seen token.now) }
{
    match place {
        Place::Between => {
            if is_colons(token) {
                return Some(Place::BehindColons);
            }
            None
        }
        Place::BehindColons => {
            if is_name(token) {
                return Some(Place::BehindName);
            }
            None
        }
        Place::BehindName => {
            if is_sign(token, b'(') {
                return Some(Place::Within(0));
            }
            if is_colons(token) {
                return Some(Place::BehindColons);
            }
            None
        }
        Place::Within(depth) => {
            if opens(token) {
                return Some(Place::Within(depth + 1));
            }
            if closes(token) {
                return Some(out_of(depth));
            }
            Some(place)
        }
    }
}

// Whether annotations may end here.
#[tactic(auto, unfolding(crate::specs::Reading::may_end))]
fn may_end(place: Place) -> bool
    ensures { result ≡ may_end place }
{
    matches!(place, Place::Between | Place::BehindName)
}

// So many tokens, if annotations may end here.
fn ended(alloc: Global, place: Place, count: usize) -> Result<usize, Trouble>
    ensures { Gives (λ n. n) result (Some count if may_end place else None) }
{
    if may_end(place) {
        return Ok(count);
    }
    Err(Trouble::Fault(plain(alloc, "an annotation that does not end")?))
}

// How many tokens annotations have from a place in them on.
pub(crate) fn notes_length(alloc: Global, start: Place, tokens: &[Token]) -> Result<usize, Trouble>
    requires { IsShallow start 1 }
    ensures read { Gives (λ n. n) result (notes_length start (map seen tokens.now)) }
    ensures size { IfOk result (λ n. n ≤ length tokens.now) }
{
    let mut place = start;
    for (i, token) in tokens.iter().enumerate() {
        match step(place, token) {
            Some(next) => place = next,
            None => return ended(alloc, place, i),
        }
    }
    ended(alloc, place, tokens.len())
}

// A list of tokens of its own.
fn copied<'a>(alloc: Global, tokens: &[Token<'a>]) -> Result<Vec<Token<'a>>, AllocError>
    ensures { IfOk result (λ v. v.items ≡ tokens.now) }
{
    tokens.iter().copied().collect(alloc)
}

// So many tokens in front, in a list of their own.
pub(crate) fn front_of<'a>(
    alloc: Global,
    tokens: &[Token<'a>],
    count: usize,
) -> Result<Vec<Token<'a>>, AllocError>
    requires { count ≤ length tokens.now }
    ensures { IfOk result (λ v. map seen v.items ≡ take count (map seen tokens.now)) }
{
    let front = copied(alloc, &tokens[..count])?;
    Ok(front)
}

// The annotations from a place on.
pub(crate) fn notes_at<'a>(
    alloc: Global,
    tokens: &[Token<'a>],
    at: usize,
) -> Result<(Vec<Token<'a>>, usize), Trouble>
    ensures { Gives (λ x. (map seen x.0.items, drop x.1 (map seen tokens.now))) result (notes_at (drop at (map seen tokens.now))) }
{
    let rest = rest_at(tokens, at);
    let count = notes_length(alloc, Place::Between, rest)?;
    let notes = front_of(alloc, rest, count)?;
    Ok((notes, at + count))
}
