// Refusals given by the number of a fault, 0 for none: what judge-model answers after one, its line, and the struct for C of an answer that refuses so.
ghost use Rattle.std.specs.Prelude.{◌≡◌, ◌+◌, ◌<◌, ◌≤◌};
ghost use Rattle.words.specs.Answer.{holds, refused, refusal_number};
ghost use Rattle.words.specs.LaidAt.{LaidAt};
ghost use Rattle.words.specs.Refusal.{◌at_place◌};
ghost use Rattle.decimals.specs.Printed.{Prints};
ghost use Rattle.variables.specs.Judged.{judged_then};
ghost use Rattle.reasons.specs.Reason.{refuse};
ghost use Rattle.lines.specs.Lines.{refusal_line};
ghost use Rattle.structs.specs.Structs.{counts_of, explanation_of, judgement_of, listed_of, printed_of, written_words_of};
ghost use Rattle.numbered.specs.Verdicts.{numbered_verdict};

use decimals::Page;
use structs::{Counts, Explanation, Judgement, Listed, PrintedBytes, WrittenWords};
use words::answer::Verdict;

// The number of no fault.
const NO_FAULT: u32 = 0;

// The number of a fault and its place.
#[derive(Clone, Copy, Debug, PartialEq, Eq)]
pub struct Refusal {
    pub number: u32,
    pub place: usize,
}

// What judge-model answers first: the refusal of the words, else of the number of values, else the first variable out of bounds, else "holds".
pub fn judge_values(read: Refusal, ws: &[u32], values: &[i32]) -> Result<Verdict, Refusal>
    ensures { numbered_verdict result ≡ judged_then (read.number at_place read.place) ws.now values.now holds }
{
    if read.number != NO_FAULT {
        return Err(read);
    }
    match variables::judge_values(Ok(()), ws, values) {
        Ok(verdict) => Ok(verdict),
        Err(r) => Err(Refusal {
            number: r.fault.number(),
            place: r.place,
        }),
    }
}

// "refused", the number of a fault and its place, on a line.
#[tactic(auto, using(lines::proofs::Lines::number_fits, lines::proofs::Lines::place_fits))]
fn put_refused(page: &mut Page, r: Refusal)
    requires { page.old.at + 50 < 1099511627776 }
    ensures text { Prints page.old (refusal_line r.number r.place) page.new }
    ensures end { page.new.at ≤ page.old.at + 40 }
{
    page.text(b"refused ");
    page.decimal(r.number as usize);
    page.byte(b' ');
    page.decimal(r.place);
    page.byte(b'\n')
}

// The same over a page; the answer is where the line ends.
pub fn put_refusal(page: &mut [u8], r: Refusal) -> usize
    ensures text { LaidAt page.old 0 (refusal_line r.number r.place) page.new result }
    ensures end { result ≤ 40 }
{
    let mut line = Page { bytes: page, at: 0 };
    put_refused(&mut line, r);
    line.at
}

// The answer of a judge or of fill.
#[tactic(auto, unfolding(structs::specs::Structs::judgement_of))]
pub fn refused_judgement(r: Refusal) -> Judgement
    ensures { result ≡ judgement_of (refused r.number r.place) }
{
    Judgement {
        said: 0,
        fault: r.number,
        at: r.place,
    }
}

// Reason's answer.
#[tactic(auto, unfolding(structs::specs::Structs::explanation_of))]
pub fn refused_explanation(r: Refusal) -> Explanation
    ensures { result ≡ explanation_of (refuse r.number r.place) }
{
    Explanation {
        reason: 0,
        fault: r.number,
        place: r.place,
        row: 0,
        constraint: 0,
    }
}

// Check's answer.
#[tactic(auto, unfolding(structs::specs::Structs::counts_of))]
pub fn refused_counts(r: Refusal) -> Counts
    ensures { result ≡ counts_of (refused r.number r.place) }
{
    Counts {
        fault: r.number,
        place: r.place,
        variables: 0,
        constraints: 0,
        auxiliaries: 0,
        rows: 0,
        words: 0,
    }
}

// The number of check's refusal.
#[tactic(auto, unfolding(words::specs::Answer::refusal_number))]
pub fn refused_number(r: Refusal) -> u32
    ensures { result ≡ refusal_number (refused r.number r.place) }
{
    r.number
}

// The answer of translate, text or bits.
#[tactic(auto, unfolding(structs::specs::Structs::counted_answer, structs::specs::Structs::written_words_of))]
pub fn refused_words(r: Refusal) -> WrittenWords
    ensures { result ≡ written_words_of (refused r.number r.place) }
{
    WrittenWords {
        fault: r.number,
        place: r.place,
        words: 0,
    }
}

// Sheet's answer.
#[tactic(auto, unfolding(structs::specs::Structs::counted_answer, structs::specs::Structs::printed_of))]
pub fn refused_bytes(r: Refusal) -> PrintedBytes
    ensures { result ≡ printed_of (refused r.number r.place) }
{
    PrintedBytes {
        fault: r.number,
        place: r.place,
        bytes: 0,
    }
}

// The answer of listing the solutions.
#[tactic(auto, unfolding(structs::specs::Structs::counted_answer, structs::specs::Structs::listed_of))]
pub fn refused_list(r: Refusal) -> Listed
    ensures { result ≡ listed_of (refused r.number r.place) }
{
    Listed {
        fault: r.number,
        place: r.place,
        solutions: 0,
    }
}
