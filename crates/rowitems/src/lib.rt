// The items of a row system, each read and judged from its head on: a variable by its bounds, a row or a product by the values.
// A fault of a word comes with its place; the end gives the fault of a word after it, a fault only where a word stands there.
// `sources` says whether source variables may stand at the head: an enum of two cases is no plainer, as the definitions take a Boolean.
// `head` is the word at `at`, which the caller has read to tell the items apart; a type of both would hold the words too, and the place moves on.
// ws, n, at and values go to each function, here and in rowterms: n and at change with each item, so that a struct of them, as grammar's Reading, would be made anew
// each time and be no plainer.
#![tactic(auto)]

ghost use Rattle.std.specs.Prelude.{◌≡◌, Bool, true, false, not, ◌+◌, ◌*◌, ◌<◌, ◌≤◌, IfOk, IfErr, Err, eqb, length, drop};
ghost use Rattle.integers.specs.Bounds.{◌to◌, within};
ghost use Rattle.integers.specs.Terms.{value};
ghost use Rattle.words.specs.Kind as kinds;
ghost use Rattle.words.specs.Kinds.{kind_number};
ghost use Rattle.words.specs.Limit as Limit;
ghost use Rattle.words.specs.Word.{kind, payload, signed, word_at};
ghost use Rattle.words.specs.Check.{step_of, step_over};
ghost use Rattle.variables.specs.Start.{starts, pair_bounds};
ghost use Rattle.rowsystems.specs.Reading.{fault_upper};
ghost use Rattle.rowsystems.specs.Row.{satisfied};
ghost use Rattle.rowsystems.specs.OneWord.{starts_sum, starts_row, row_of};
ghost use Rattle.rowreading.specs.Item.{start_due};
ghost use Rattle.rowreading.specs.Onward.{Placed};
ghost use Rattle.rowterms.specs.Values.{seen_step, ValuesKnown};
ghost use Rattle.rowitems.specs.Passing.{ItemPassed};

use rowfaults::{check_head, check_row, check_start};
use rowreading::items::upper_at;
use rowsystems::Due;
use rowterms::{Seen, see_cut, see_factors};
use variables::between;
use words::fault::{Fault, Refusal};
use words::kind::Kind;
use words::word::Word;

// The upper bound, of a kind, after the word of the lower one, and whether a value is between the two.
#[tactic(auto, unfolding(words::specs::Check::step_over))]
fn see_upper(ws: &[u32], kind: Kind, lower: Word, at: usize, v: i64) -> Result<Seen, Refusal>
    requires { at ≤ Limit.row_words }
    ensures step { seen_step result ≡ step_over (fault_upper (kind_number kind) lower (word_at ws.now at)) at }
    ensures truth { IfOk result (λ s. s.holds ≡ within (signed lower to signed (word_at ws.now at)) v) }
{
    let next = upper_at(ws, kind, lower, at)?;
    let holds = between(lower.signed(), v, Word::at(ws, at).signed());
    Ok(Seen { at: next, holds })
}

// A variable, and whether v is within its bounds.
pub fn see_variable(
    ws: &[u32],
    sources: bool,
    head: Word,
    n: usize,
    at: usize,
    v: i64,
) -> Result<Seen, Refusal>
    requires { Placed ws.now at × (head ≡ word_at ws.now at) × (starts head ≡ true) }
    ensures step { ItemPassed ws.now sources n at (start_due (not (eqb (kind head) kinds.auxiliary_lower))) (n + 1) (seen_step result) }
    ensures truth { IfOk result (λ s. s.holds ≡ within (pair_bounds head (word_at ws.now (at + 1))) v) }
{
    // No `?` of `over`, here, in row_terms and in see_other: tried, and the proof did not close by search alone.
    if let Err(fault) = check_start(sources, n, head) {
        return Err(Refusal { fault, place: at });
    }
    if head.is(Kind::AuxiliaryLower) {
        return see_upper(ws, Kind::AuxiliaryUpper, head, at + 1, v);
    }
    if head.is(Kind::Lower) {
        return see_upper(ws, Kind::Upper, head, at + 1, v);
    }
    Ok(Seen {
        at: at + 1,
        holds: between(0, v, 1),
    })
}

// How many terms a row has whose words are all there; else the row is refused: its head, or the word at which it is cut or faulty.
pub fn row_terms(ws: &[u32], head: Word, n: usize, at: usize) -> Result<usize, Refusal>
    requires { Placed ws.now at × (head ≡ word_at ws.now at) × (starts_sum head ≡ true) }
    ensures whole { IfOk result (λ terms. (terms ≡ payload head) × (terms ≤ Limit.terms) × (at + 1 + 2 * terms < length ws.now)) }
    ensures halts { IfErr result (λ r. (sources : Bool) → ItemPassed ws.now sources n at Due.Item n (step_of (Err r))) }
{
    if let Err(fault) = check_row(head) {
        return Err(Refusal { fault, place: at });
    }
    let terms = head.payload();
    if at + 1 + 2 * terms < ws.len() {
        return Ok(terms);
    }
    Err(see_cut(ws, n, at + 1, terms))
}

// A product; or the end, answered as the fault that a word after it would have.
pub fn see_other(
    ws: &[u32],
    sources: bool,
    head: Word,
    n: usize,
    at: usize,
    values: &[i32],
) -> Result<Seen, Refusal>
    requires { Placed ws.now at × (head ≡ word_at ws.now at) × ValuesKnown values.now n × (starts head ≡ false) × (starts_sum head ≡ false) }
    ensures step { ItemPassed ws.now sources n at Due.Item n (seen_step result) }
    ensures truth { IfOk result (λ s. (starts_row head ≡ true) × (s.holds ≡ satisfied (value values.now) (row_of head (drop (at + 1) ws.now)))) }
{
    if let Err(fault) = check_head(sources, n, head) {
        return Err(Refusal { fault, place: at });
    }
    if head.is(Kind::Product) {
        return see_factors(ws, n, at + 1, values);
    }
    Err(Refusal {
        fault: Fault::WordAfterEnd,
        place: at + 1,
    })
}
