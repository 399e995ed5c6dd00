// The options, and which of them go together.
ghost use Rattle.std.specs.Prelude.{◌≡◌};
ghost use Rattle.requests.specs.Together.{first_wrong, wrong_forms, wrong_options, wrong_with};

use crate::which::Which;
use crate::wrong::Wrong;

// How a file is read, whatever its name; what its words are; how the answer is written.
#[derive(Clone, Copy, Debug, PartialEq, Eq)]
pub struct Flags {
    pub text: bool,
    pub hex: bool,
    pub bytes: bool,
    pub model: bool,
    pub rows: bool,
    pub out_bytes: bool,
    pub json: bool,
}

// How often an option stands that takes a word: a candidate, a file of values, a file of data.
#[derive(Clone, Copy, Debug, PartialEq, Eq)]
pub struct Times {
    pub candidate: usize,
    pub values: usize,
    pub data: usize,
}

// What else is asked of the words: whether the candidate is 1 or 2, whether a file and values are named, and whether both are standard input.
#[derive(Clone, Copy, Debug, PartialEq, Eq)]
pub struct Named {
    pub known_candidate: bool,
    pub file: bool,
    pub values: bool,
    pub same_input: bool,
}

// The first of the ways of reading that exclude each other, and of the options that stand twice.
fn wrong_forms(flags: &Flags, times: &Times) -> Option<Wrong>
    ensures { result ≡ wrong_forms flags.now times.now }
{
    if 1 < times.values {
        return Some(Wrong::SecondValues);
    }
    if 1 < times.data {
        return Some(Wrong::SecondData);
    }
    if 1 < times.candidate {
        return Some(Wrong::SecondCandidate);
    }
    if flags.text && flags.hex || flags.text && flags.bytes || flags.hex && flags.bytes {
        return Some(Wrong::Forms);
    }
    None
}

// The first of the options that exclude each other.
fn wrong_together(flags: &Flags, times: &Times, named: &Named) -> Option<Wrong>
    ensures { result ≡ wrong_options flags.now times.now named.now }
{
    if 0 < times.candidate && !named.known_candidate {
        return Some(Wrong::Candidate);
    }
    if flags.model && flags.rows {
        return Some(Wrong::ModelAndRows);
    }
    if 0 < times.candidate && flags.rows {
        return Some(Wrong::CandidateAndRows);
    }
    if flags.out_bytes && flags.json {
        return Some(Wrong::BytesAndJson);
    }
    None
}

// The first of the options that a command does not take.
fn wrong_with(which: Which, flags: &Flags, times: &Times, named: &Named) -> Option<Wrong>
    ensures { result ≡ wrong_with which flags.now times.now named.now }
{
    if !named.file {
        return Some(Wrong::NoFile);
    }
    if !which.takes_values() && (named.values || 0 < times.values) {
        return Some(Wrong::TakesNoValues);
    }
    if !which.takes_candidates() && 0 < times.candidate {
        return Some(Wrong::TakesNoCandidate);
    }
    if !which.prints_words() && flags.out_bytes {
        return Some(Wrong::PrintsNoWords);
    }
    if named.same_input {
        return Some(Wrong::SameInput);
    }
    None
}

// The first thing that is wrong about the options of a command.
pub fn wrong_usage(which: Which, flags: &Flags, times: &Times, named: &Named) -> Option<Wrong>
    ensures { result ≡ first_wrong which flags.now times.now named.now }
{
    match wrong_forms(flags, times) {
        Some(wrong) => Some(wrong),
        None => match wrong_together(flags, times, named) {
            Some(wrong) => Some(wrong),
            None => wrong_with(which, flags, times, named),
        },
    }
}
