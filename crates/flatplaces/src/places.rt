// The place of a statement in the MiniZinc model, by its annotations mzn_path.
ghost use Rattle.std.specs.Prelude.{◌≡◌, map, option_map, Some, IfOk};
ghost use Rattle.flattokens.specs.Token.{token};
ghost use Rattle.flatzinc.specs.Answer.{Gives};
ghost use Rattle.flatplaces.specs.Place.{after_note, origin_of, is_after, better, placed, place_of};
ghost use Rattle.flatplaces.specs.Seen.{origin, place};

use crate::paths::{Element, elements, first_usable, part_of, unescaped};
use flattokens::Token;
use flatzinc::trouble::Trouble;
use std::alloc::{AllocError, Global};
use std::cmp::Ordering;

// A line of a file.
#[derive(Debug, Drop)]
pub struct Place {
    pub file: Vec<u8>,
    pub line: usize,
}

// What stands before a token: nothing of a path, its name, the bracket behind its name.
#[derive(Clone, Copy, Debug, PartialEq, Eq)]
pub enum Before {
    Nothing,
    Name,
    Bracket,
}

// A path, and its element that says a place.
#[derive(Debug, Drop)]
pub struct Origin {
    pub path: Vec<u8>,
    pub element: Element,
}

// What stands before the next token.
#[tactic(auto, unfolding(crate::specs::Place::after_note))]
fn after_note(before: Before, note: &Token<'_>) -> Before
    ensures { result ≡ after_note before (token note.now) }
{
    match note {
        Token::Name(name) if *name == b"mzn_path".as_slice() => Before::Name,
        Token::Sign(b'(') if before == Before::Name => Before::Bracket,
        _ => Before::Nothing,
    }
}

// The path of a text in quotes, if one of its elements says a place.
#[tactic(auto, unfolding(crate::specs::Place::origin_of))]
fn origin_of(alloc: Global, folder: &[u8], text: &[u8]) -> Result<Option<Origin>, AllocError>
    ensures { IfOk result (λ o. option_map origin o ≡ origin_of folder.now text.now) }
{
    let path = unescaped(alloc, text)?;
    let all = elements(alloc, &path)?;
    match first_usable(folder, &path, &all) {
        None => Ok(None),
        Some(element) => Ok(Some(Origin { path, element })),
    }
}

// Whether a path is longer than another, or as long and later in the order of bytes.
#[tactic(auto, unfolding(crate::specs::Place::is_after))]
fn is_after(path: &[u8], other: &[u8]) -> bool
    ensures { result ≡ is_after path.now other.now }
{
    if path.len() == other.len() {
        return path.cmp(other) == Ordering::Greater;
    }
    other.len() < path.len()
}

// The one of two that comes after the other.
#[tactic(auto, unfolding(crate::specs::Place::better))]
fn better(best: Option<Origin>, next: Option<Origin>) -> Option<Origin>
    ensures { option_map origin result ≡ better (option_map origin best) (option_map origin next) }
{
    match (best, next) {
        (None, next) => next,
        (Some(best), None) => Some(best),
        (Some(best), Some(next)) => {
            if is_after(&next.path, &best.path) {
                Some(next)
            } else {
                Some(best)
            }
        }
    }
}

// The place that a path's element says.
fn placed(alloc: Global, best: &Origin) -> Result<Place, AllocError>
    ensures { IfOk result (λ p. place p ≡ placed (origin best.now)) }
{
    let file = part_of(&best.path, best.element.file, best.element.bar).to_vec(alloc)?;
    Ok(Place {
        file,
        line: best.element.line,
    })
}

// The place that a statement's annotations say: the first one in the longest of their paths that say one.
#[tactic(auto, unfolding(crate::specs::Place::place_of))]
pub fn place_of(alloc: Global, folder: &[u8], notes: &[Token<'_>]) -> Result<Option<Place>, Trouble>
    ensures { Gives (option_map place) result (Some (place_of folder.now (map token notes.now))) }
{
    let mut best = None;
    let mut before = Before::Nothing;
    for note in notes {
        if let (Before::Bracket, Token::Text(text)) = (before, note) {
            best = better(best, origin_of(alloc, folder, text)?);
        }
        before = after_note(before, note);
    }
    match best {
        None => Ok(None),
        Some(origin) => Ok(Some(placed(alloc, &origin)?)),
    }
}
