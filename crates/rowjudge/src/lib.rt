// Judge-rows: the words of a row system and the values of its variables are read in one pass.
// Each item is read, and its bounds, its row or its product judged, before the next.
// `sources` and `first` say whether source variables may stand there: an enum of two cases is no plainer, as the definitions take a Boolean.
#![tactic(auto)]

ghost use Rattle.std.specs.Prelude.{◌≡◌, ◌+◌, ◌<◌, ◌≤◌, IfOk, length, drop};
ghost use Rattle.words.specs.Answer.{out_of_bounds};
ghost use Rattle.words.specs.Faults.{fault_number, refusal_of, said_of, verdict_of};
ghost use Rattle.words.specs.Variables.{variables};
ghost use Rattle.rowsystems.specs.JudgeRows.{judge_rows};
ghost use Rattle.rowreading.specs.Item.{start_due};
ghost use Rattle.rowreading.specs.Onward.{onward, stopped, Placed};
ghost use Rattle.rowterms.specs.Values.{ValuesKnown};
ghost use Rattle.rowjudge.specs.Judging.{JudgedOn, ValueOrOutside, with_row};

use integers::plus;
use rowitems::{row_terms, see_other, see_variable};
use rowreading::rows::starts_sum;
use rowreading::{read_on, refusal_at};
use rowterms::{known_value, see_constant, see_term};
use variables::starts_variable;
use words::answer::Verdict;
use words::fault::{Fault, Refusal};
use words::kind::Kind;
use words::limit;
use words::word::Word;

// What is judged from a place on where the words are accepted: how many variables are counted, and what the values say.
#[derive(Clone, Copy, Debug, PartialEq, Eq)]
pub struct Judged {
    pub variables: usize,
    pub said: Verdict,
}

// What is judged where reading stops with a refusal, after n variables: none past the end, and then what the rows so far say.
fn judge_end(ws: &[u32], found: Refusal, n: usize, said: Verdict) -> Result<Judged, Refusal>
    ensures reads { refusal_of result ≡ stopped ws.now (fault_number found.fault) found.place }
    ensures judged { IfOk result (λ j. (j.variables ≡ n) × (j.said ≡ said)) }
{
    refusal_at(ws, found)?;
    Ok(Judged { variables: n, said })
}

// Where the value of variable x is missing or out of its bounds, the rest is read and not judged: what such values add up to may pass 64 bits.
fn judge_rest(ws: &[u32], sources: bool, x: usize, at: usize) -> Result<Judged, Refusal>
    requires { Placed ws.now at × (x < 2000000000) }
    ensures reads { refusal_of result ≡ onward (start_due sources) (x + 1) at ws.now }
    ensures judged { IfOk result (λ j. (j.variables ≡ x + 1 + length (variables (drop at ws.now))) × (said_of j.said ≡ out_of_bounds x)) }
{
    let variables = read_on(ws, sources, x + 1, at)?;
    Ok(Judged {
        variables,
        said: Verdict::OutOfBounds(x),
    })
}

// One more than the farthest number of a signed payload: within no bounds.
const OUTSIDE: i64 = 134217729;

// The value of variable x, OUTSIDE where it is missing: judged as one out of its bounds is, with no case of its own.
fn value_or_outside(values: &[i32], x: usize) -> i64
    ensures { ValueOrOutside values.now x result }
{
    if x < values.len() {
        return known_value(values, x);
    }
    OUTSIDE
}

// What the rows say with row k: the first false one stands.
fn with_row(said: Verdict, holds: bool, k: usize) -> Verdict
    ensures { result ≡ with_row said holds k }
{
    match said {
        Verdict::Holds if !holds => Verdict::False(k),
        _ => said,
    }
}

// The items from a place on, with so many variables and k rows before it, whose values are known.
pub fn judge_on(
    ws: &[u32],
    values: &[i32],
    first: bool,
    before: usize,
    start: usize,
    k: usize,
) -> Result<Judged, Refusal>
    requires { Placed ws.now start × ValuesKnown values.now before × (before ≤ 1000000000) × (k ≤ 1000000000) }
    ensures { JudgedOn ws.now values.now first before start k result }
{
    let mut sources = first;
    let mut n = before;
    let mut at = start;
    let mut rows = k;
    let mut said = Verdict::Holds;
    // no list or count to go over: the pass ends by what it reads, in the middle of a row's terms too
    let found = 'items: loop {
        let head = Word::at(ws, at);
        if starts_variable(head) {
            let v = value_or_outside(values, n);
            // no `?`, here and below: at the end of the words judge_end accepts
            let seen = match see_variable(ws, sources, head, n, at, v) {
                Ok(seen) => seen,
                Err(refusal) => break refusal,
            };
            at = seen.at;
            sources = !head.is(Kind::AuxiliaryLower);
            if !seen.holds {
                return judge_rest(ws, sources, n, at);
            }
            n += 1;
        } else if starts_sum(head.bits()) {
            let terms = match row_terms(ws, head, n, at) {
                Ok(terms) => terms,
                Err(refusal) => break refusal,
            };
            let mut total = 0;
            for term in 0..terms {
                match see_term(ws, n, at + 1 + 2 * term, values) {
                    Ok(product) => total = plus(total, product),
                    Err(refusal) => break 'items refusal,
                }
            }
            let seen = match see_constant(ws, head, n, at + 1 + 2 * terms, total) {
                Ok(seen) => seen,
                Err(refusal) => break refusal,
            };
            at = seen.at;
            sources = false;
            said = with_row(said, seen.holds, rows);
            rows += 1;
        } else {
            let seen = match see_other(ws, sources, head, n, at, values) {
                Ok(seen) => seen,
                Err(refusal) => break refusal,
            };
            at = seen.at;
            sources = false;
            said = with_row(said, seen.holds, rows);
            rows += 1;
        }
    };
    judge_end(ws, found, n, said)
}

// "Holds", else the first variable out of bounds, else the first false row or product; a refusal comes first.
pub fn judge_rows(ws: &[u32], values: &[i32]) -> Result<Verdict, Refusal>
    ensures { verdict_of result ≡ judge_rows ws.now values.now }
{
    if limit::ROW_WORDS < ws.len() {
        return Err(Refusal {
            fault: Fault::TooManyWords,
            place: 0,
        });
    }
    let judged = judge_on(ws, values, true, 0, 0, 0)?;
    if values.len() != judged.variables {
        return Err(Refusal {
            fault: Fault::WrongValueCount,
            place: 0,
        });
    }
    Ok(judged.said)
}
