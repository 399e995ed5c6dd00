// The lines that the programs print, laid over a page of bytes; each public function answers where they end.
// No String: there is no heap. No Formatter: a format needs a writer, and what is printed goes to a lent page, cut at its end, each byte promised.
#![tactic(auto)]

ghost use Rattle.std.specs.Prelude.{◌≡◌, ◌+◌, ◌*◌, ◌<◌, ◌≤◌, length, take};
ghost use Rattle.std.specs.Counts.{IsPrefixLen};
ghost use Rattle.words.specs.Fault.{output_too_short};
ghost use Rattle.words.specs.Faults.{fault_number};
ghost use Rattle.words.specs.LaidAt.{LaidAt};
ghost use Rattle.decimals.specs.Printed.{Prints};
ghost use Rattle.lines.specs.Lines.{word_line, word_lines, refusal_line, answer_lines};

use decimals::Page;
use hexadecimal::hex_digits;
use words::fault::{Fault, Refusal};

// A word, on a line. The room above the page's place is asked for, here and below: the place moves on, and how much is to come differs.
fn put_word(page: &mut Page, w: u32)
    requires { page.old.at + 9 < 1099511627776 }
    ensures text { Prints page.old (word_line w) page.new }
    ensures end { page.new.at ≡ page.old.at + 9 }
{
    page.text(&hex_digits(w));
    page.byte(b'\n')
}

// Words, each on a line.
fn put_words(page: &mut Page, words: &[u32])
    requires { page.old.at + 9 * length words.now < 1099511627776 }
    ensures { Prints page.old (word_lines words.now) page.new }
{
    for &w in words {
        put_word(page, w);
    }
}

// "refused", the number of a fault and its place, on a line.
#[tactic(auto, using(crate::proofs::Lines::number_fits, crate::proofs::Lines::place_fits))]
fn put_refused(page: &mut Page, r: Refusal)
    requires { page.old.at + 50 < 1099511627776 }
    ensures text { Prints page.old (refusal_line (fault_number r.fault) r.place) page.new }
    ensures end { page.new.at ≤ page.old.at + 40 }
{
    page.text(b"refused ");
    page.decimal(r.fault.number() as usize);
    page.byte(b' ');
    page.decimal(r.place);
    page.byte(b'\n')
}

// The first n words of a list, each on a line; n may be more than the list has, so that a caller need not cut it.
pub fn put_front(page: &mut [u8], words: &[u32], n: usize) -> usize
    requires { length words.now < 1073741824 }
    ensures { LaidAt page.old 0 (word_lines (take n words.now)) page.new result }
{
    let mut lines = Page { bytes: page, at: 0 };
    put_words(&mut lines, &words[..n.min(words.len())]);
    lines.at
}

// "refused", the fault's number and its place, on a line.
pub fn put_refusal(page: &mut [u8], r: Refusal) -> usize
    ensures text { LaidAt page.old 0 (refusal_line (fault_number r.fault) r.place) page.new result }
    ensures end { result ≤ 40 }
{
    let mut line = Page { bytes: page, at: 0 };
    put_refused(&mut line, r);
    line.at
}

// What a call answers that wrote words to the front of a list: the refusal, or those words, each on a line.
pub fn put_answer(page: &mut [u8], answer: Result<usize, Refusal>, words: &[u32]) -> usize
    requires words { length words.now < 1073741824 }
    requires page { (9 * length words.now ≤ length page.old) × (40 ≤ length page.old) }
    ensures text { take result page.new ≡ answer_lines answer words.now }
    ensures count { IsPrefixLen result page.new }
{
    match answer {
        Ok(n) => put_front(page, words, n),
        Err(r) => put_refusal(page, r),
    }
}

// Refusal 16, where what is read is longer than the program has room for.
pub fn put_too_long(page: &mut [u8]) -> usize
    ensures text { LaidAt page.old 0 (refusal_line output_too_short 0) page.new result }
    ensures end { result ≤ 40 }
{
    put_refusal(
        page,
        Refusal {
            fault: Fault::OutputTooShort,
            place: 0,
        },
    )
}
