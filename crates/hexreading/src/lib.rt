// Reading words in hexadecimal: eight digits each, between them blanks, and comments from # to the end of the line.
#![tactic(auto)]

ghost use Rattle.std.specs.Prelude.{◌≡◌};
ghost use Rattle.hexreading.specs.Reading.{digit_of, is_blank, ended, at_end_of_word, next};

use std::alloc::{AllocFailed, Global};

// Why a text is no words.
#[derive(Clone, Copy, Debug, PartialEq, Eq)]
pub enum Wrong {
    // there is no memory for them
    Memory,
    // the word at a place has another number of digits than eight
    Digits { place: usize, digits: usize },
    // the byte at a place is no digit
    Byte { place: usize },
}

impl From<AllocFailed<u32>> for Wrong {
    fn from(_: AllocFailed<u32>) -> Wrong {
        Wrong::Memory
    }
}

// What was read of a line: whether a comment goes on, and the digits of a word so far, with what they say.
#[derive(Clone, Copy, Debug, PartialEq, Eq)]
pub struct Begun {
    pub comment: bool,
    pub digits: usize,
    pub word: u32,
}

// What a byte gives: a word that ended before it, and what was read of the line.
#[derive(Clone, Copy, Debug, PartialEq, Eq)]
pub struct Step {
    pub word: Option<u32>,
    pub begun: Begun,
}

// The number that a digit says, if the byte is one.
fn digit_of(b: u8) -> Option<u32>
    ensures { result ≡ digit_of b }
{
    if b'0' <= b && b <= b'9' {
        return Some((b - b'0') as u32);
    }
    if b'A' <= b && b <= b'F' {
        return Some((b - b'A') as u32 + 10);
    }
    if b'a' <= b && b <= b'f' {
        return Some((b - b'a') as u32 + 10);
    }
    None
}

// Whether a byte is blank.
fn is_blank(b: u8) -> bool
    ensures { result ≡ is_blank b }
{
    b == b' ' || b == b'\t' || b == b'\r' || b == b'\n'
}

// The word that ends at a place, if digits stand before it.
fn ended(begun: Begun, place: usize) -> Result<Option<u32>, Wrong>
    ensures { result ≡ ended begun place }
{
    if begun.digits == 0 {
        return Ok(None);
    }
    if begun.digits == 8 {
        return Ok(Some(begun.word));
    }
    Err(Wrong::Digits {
        place: place.saturating_sub(begun.digits),
        digits: begun.digits,
    })
}

// A byte that is no digit and stands in no comment.
fn at_end_of_word(begun: Begun, place: usize, b: u8) -> Result<Step, Wrong>
    ensures { result ≡ at_end_of_word begun place b }
{
    if b != b'#' && !is_blank(b) {
        return Err(Wrong::Byte { place });
    }
    match ended(begun, place) {
        Err(wrong) => Err(wrong),
        Ok(word) => Ok(Step {
            word,
            begun: Begun {
                comment: b == b'#',
                digits: 0,
                word: 0,
            },
        }),
    }
}

// The next byte, at a place.
fn next(begun: Begun, place: usize, b: u8) -> Result<Step, Wrong>
    ensures { result ≡ next begun place b }
{
    if begun.comment {
        return Ok(Step {
            word: None,
            begun: Begun {
                comment: b != b'\n',
                digits: 0,
                word: 0,
            },
        });
    }
    match digit_of(b) {
        None => at_end_of_word(begun, place, b),
        Some(d) => Ok(Step {
            word: None,
            begun: Begun {
                comment: false,
                digits: begun.digits.saturating_add(1),
                word: begun.word % 268435456 * 16 + d,
            },
        }),
    }
}

// The words of a text.
pub fn words_of(alloc: Global, text: &[u8]) -> Result<Vec<u32>, Wrong> {
    let mut words = Vec::new(alloc);
    let mut begun = Begun {
        comment: false,
        digits: 0,
        word: 0,
    };
    for (place, &b) in text.iter().enumerate() {
        let step = next(begun, place, b)?;
        if let Some(word) = step.word {
            words.push(word)?;
        }
        begun = step.begun;
    }
    if let Some(word) = ended(begun, text.len())? {
        words.push(word)?;
    }
    Ok(words)
}
