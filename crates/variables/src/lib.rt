// The variables of words, of models and of row systems alike: their number, and the first one whose value is out of its bounds.
#![tactic(auto)]

ghost use Rattle.std.specs.Prelude.{◌≡◌, length};
ghost use Rattle.integers.specs.Bounds.{◌to◌, within};
ghost use Rattle.integers.specs.Terms.{value};
ghost use Rattle.words.specs.Answer.{holds};
ghost use Rattle.words.specs.Faults.{refusal_of, said_of, verdict_of};
ghost use Rattle.words.specs.Judge.{first_out_of_bounds};
ghost use Rattle.words.specs.Variables.{starts_pair, variables};
ghost use Rattle.variables.specs.Start.{starts, pair_bounds};
ghost use Rattle.variables.specs.Judged.{judged_then};

use words::answer::Verdict;
use words::fault::{Fault, Refusal};
use words::kind::Kind;
use words::value_at;
use words::word::Word;

// Whether a word is the lower bound of a variable.
#[tactic(auto, unfolding(words::specs::Variables::starts_pair))]
pub fn starts_pair(w: Word) -> bool
    ensures { result ≡ starts_pair w }
{
    w.is(Kind::Lower) || w.is(Kind::AuxiliaryLower)
}

// Whether a word starts a variable.
#[tactic(auto, unfolding(crate::specs::Start::starts))]
pub fn starts_variable(w: Word) -> bool
    ensures { result ≡ starts w }
{
    starts_pair(w) || w.is(Kind::Boolean)
}

// Whether a value is between two numbers. `words::in_range` is no plainer by this one: its two numbers are constants, and its clause names the range.
#[tactic(auto, unfolding(integers::specs::Bounds::within))]
pub fn between(lower: i64, v: i64, upper: i64) -> bool
    ensures { result ≡ within (lower to upper) v }
{
    lower <= v && v <= upper
}

// Whether a value keeps the bounds of the variable that a word starts; a pair's upper bound is the next word.
#[tactic(auto, unfolding(crate::specs::Start::pair_bounds))]
fn keeps(w: Word, next: Word, v: i64) -> bool
    ensures { result ≡ within (pair_bounds w next) v }
{
    if starts_pair(w) {
        return between(w.signed(), v, next.signed());
    }
    between(0, v, 1)
}

// The number of variables.
pub fn count_variables(ws: &[u32]) -> usize
    ensures { result ≡ length (variables ws.now) }
{
    ws.iter()
        .filter(|w| starts_variable(Word::from(**w)))
        .count()
}

// The first variable whose value is out of its bounds, else "holds"; there are as many values as variables.
// The variables are counted by hand: a filter, zipped with the values and counted, would give the place of the next word by pairs in pairs and be no plainer.
pub fn first_out_of_bounds(ws: &[u32], values: &[i32]) -> Verdict
    requires { length values.now ≡ length (variables ws.now) }
    ensures { said_of result ≡ first_out_of_bounds (value values.now) 0 (variables ws.now) holds }
{
    let mut x = 0;
    for (at, &w) in ws.iter().enumerate() {
        if values.len() <= x {
            break;
        }
        let head = Word::from(w);
        if starts_variable(head) {
            if !keeps(head, Word::at(ws, at + 1), value_at(values, x)) {
                return Verdict::OutOfBounds(x);
            }
            x += 1;
        }
    }
    Verdict::Holds
}

// What judge-model answers first: the refusal of the words, else of the number of values, else the first variable out of bounds, else "holds".
pub fn judge_values(
    read: Result<(), Refusal>,
    ws: &[u32],
    values: &[i32],
) -> Result<Verdict, Refusal>
    ensures { verdict_of result ≡ judged_then (refusal_of read) ws.now values.now holds }
{
    read?;
    if values.len() != count_variables(ws) {
        return Err(Refusal {
            fault: Fault::WrongValueCount,
            place: 0,
        });
    }
    Ok(first_out_of_bounds(ws, values))
}
