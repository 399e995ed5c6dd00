// Reading a row system: the first faulty word and its fault.
#![tactic(auto)]

ghost use Rattle.std.specs.Prelude.{◌≡◌, ◌+◌, ◌≤◌, IfOk, length, drop};
ghost use Rattle.words.specs.Faults.{fault_number, refusal_of};
ghost use Rattle.words.specs.Variables.{variables};
ghost use Rattle.rowsystems.specs.Reading.{read_rows, started};
ghost use Rattle.rowreading.specs.Item.{start_due};
ghost use Rattle.rowreading.specs.Onward.{onward, stopped, Placed};

use items::{Item, read_term};
use rowfaults::check_head;
use variables::starts_variable;
use words::fault::{Fault, Refusal};
use words::limit;
use words::word::Word;

pub mod items;
pub mod rows;

// How many variables start at a word: one at a lower bound and at a Boolean variable.
#[tactic(auto, unfolding(rowsystems::specs::Reading::started, variables::specs::Start::starts))]
pub fn started_of(w: Word) -> usize
    ensures { result ≡ started w }
{
    starts_variable(w) as usize
}

// What a reading that stops with a refusal finds: the words are accepted past the end word; where they end before it, that is the fault.
// One function with `refused` of `modelreading` is no plainer: that one accepts nothing.
#[tactic(auto, unfolding(crate::specs::Onward::stopped))]
pub fn refusal_at(ws: &[u32], found: Refusal) -> Result<(), Refusal>
    ensures { refusal_of result ≡ stopped ws.now (fault_number found.fault) found.place }
{
    if found.place < ws.len() {
        return Err(found);
    }
    if found.fault == Fault::WordAfterEnd {
        return Ok(());
    }
    Err(Refusal {
        fault: Fault::WordsEnd,
        place: found.place,
    })
}

// How many variables are counted where the items from a place on are accepted, or their first fault; so many variables stand before them.
// `first` says whether source variables may still stand there: an enum of two cases is no plainer, as the definitions take a Boolean.
pub fn read_on(ws: &[u32], first: bool, before: usize, start: usize) -> Result<usize, Refusal>
    requires { Placed ws.now start × (before ≤ 2000000000) }
    ensures reads { refusal_of result ≡ onward (start_due first) before start ws.now }
    ensures counts { IfOk result (λ n. n ≡ before + length (variables (drop start ws.now))) }
{
    let mut sources = first;
    let mut n = before;
    let mut at = start;
    // no list or count to go over: the pass ends by what it reads, in a term too (01 names this form)
    let found = 'items: loop {
        let head = Word::at(ws, at);
        if let Err(fault) = check_head(sources, n, head) {
            break Refusal { fault, place: at };
        }
        n += started_of(head);
        at += 1;
        let item = Item::from(head);
        for _ in 0..item.terms() {
            match read_term(ws, n, at) {
                Ok(next) => at = next,
                Err(refusal) => break 'items refusal,
            }
        }
        match item.read_rest(ws, n, at) {
            Ok(next) => at = next,
            Err(refusal) => break refusal,
        }
        sources = item.sources_after();
    };
    refusal_at(ws, found)?;
    Ok(n)
}

// How many variables a row system has, or its first fault.
#[tactic(auto, unfolding(rowsystems::specs::Reading::read_rows, crate::specs::Onward::onward, crate::specs::Item::start_due))]
pub fn read_rows(ws: &[u32]) -> Result<usize, Refusal>
    ensures reads { refusal_of result ≡ read_rows ws.now }
    ensures counts { IfOk result (λ n. n ≡ length (variables ws.now)) }
{
    if limit::ROW_WORDS < ws.len() {
        return Err(Refusal {
            fault: Fault::TooManyWords,
            place: 0,
        });
    }
    read_on(ws, true, 0, 0)
}
