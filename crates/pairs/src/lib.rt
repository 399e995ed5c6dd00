// Two candidates over one variable table: check, translate, judge-model and fill of the model of each. Candidate 1 is the first; every other number is the second.
// The candidate stays a number: the calls for C take one and hand it on.
#![tactic(auto)]

ghost use Rattle.std.specs.Prelude.{◌≡◌, ◌≤◌, ◌<◌, Bool, List, ◌++◌, ℕ, length, take, IfOk};
ghost use Rattle.words.specs.Overlay.{overlay};
ghost use Rattle.words.specs.Limit as Limit;
ghost use Rattle.words.specs.Faults.{written_of, verdict_of};
ghost use Rattle.rules.specs.Translation.{picks, system_words};
ghost use Rattle.checking.specs.Checked.{checked};
ghost use Rattle.translation.specs.Shares.{Shares};
ghost use Rattle.filling.specs.Filled.{handed, IfFilled};
ghost use Rattle.filling.specs.Satisfied.{Satisfied};
ghost use Rattle.pairs.specs.Pair.{before, separates, ends_table, first_model, second_model, model_of};
ghost use Rattle.pairs.specs.Calls.{pair_check, pair_translate, pair_translated, pair_judge, pair_fill, pair_filled};
ghost use Rattle.pairs.specs.HandsOver.{PairHandsOver};
ghost use Rattle.pairs.specs.Copied.{Copies};
ghost use Rattle.pairs.specs.Alone.{OtherWrote};
ghost use Rattle.pairs.specs.FaultyTable.{RefusedByTable};

use checking::{Counts, check};
use filling::{Filling, fill};
use modeljudge::judge_model;
use translation::translate;
use words::answer::Verdict;
use words::fault::{Fault, Refusal};
use words::kind::Kind;
use words::limit;
use words::list::lay;
use words::word::Word;

// The word between the candidates.
const SEPARATOR: u32 = 0xD0000000;

// Whether the table ends before a word.
#[tactic(auto, unfolding(crate::specs::Pair::ends_table, crate::specs::Pair::separates))]
fn ends_table(w: u32) -> bool
    ensures { result ≡ ends_table w }
{
    let word = Word::from(w);
    word.is(Kind::Constraint) || word.is(Kind::ModelEnd) || separates(w)
}

// Whether a word is the one between the candidates.
#[tactic(auto, unfolding(crate::specs::Pair::separates))]
fn separates(w: u32) -> bool
    ensures { result ≡ separates w }
{
    w == SEPARATOR
}

// How many words stand before the first that passes a test; all of them where none does.
fn words_before<F: Fn(u32) -> bool>(ws: &[u32], test: F) -> usize
    requires { F.IsAlwaysCallable test }
    ensures { (t : ℕ → Bool) → ((w : ℕ) (r : Bool) → F.post test w r → r ≡ t w) → result ≡ before t ws.now }
{
    ws.iter().take_while(|&&w| !test(w)).count()
}

// Lays the first candidate's model over the front of a list.
fn lay_first(ws: &[u32], d: usize, out: &mut [u32])
    requires { (d ≡ before separates ws.now) × (d < length ws.now) × (d < Limit.model_words) }
    ensures { out.new ≡ overlay out.old 0 (first_model ws.now) }
{
    lay(out, 0, &ws[..d]);
    lay(out, d, &[Word::new(Kind::ModelEnd, 0).bits()]);
}

// Lays the second candidate's model, a table of t words and what follows the word at place d, over the front of a list.
fn lay_second(ws: &[u32], d: usize, t: usize, out: &mut [u32])
    requires { (d ≡ before separates ws.now) × (d < length ws.now) × (t ≡ before ends_table ws.now) × (length (second_model ws.now) ≤ Limit.model_words) }
    ensures { out.new ≡ overlay out.old 0 (second_model ws.now) }
{
    lay(out, 0, &ws[..t]);
    lay(out, t, &ws[d + 1..]);
}

// Copies a candidate's model to the front of a list: 1 is the first candidate, every other number the second. How many words the model has.
// The caller lends an array for the most words that a model may have, and slices it by the count: no heap.
fn copy_model(ws: &[u32], candidate: u32, out: &mut [u32]) -> Result<usize, Refusal>
    ensures { Copies candidate ws.now result out.old out.new }
{
    let d = words_before(ws, separates);
    if d == ws.len() {
        return Err(Refusal {
            fault: Fault::WordsEnd,
            place: d,
        });
    }
    let too_many = Refusal {
        fault: Fault::TooManyWords,
        place: 0,
    };
    if candidate == 1 {
        if limit::MODEL_WORDS <= d {
            return Err(too_many);
        }
        lay_first(ws, d, out);
        return Ok(d + 1);
    }
    let t = words_before(ws, ends_table);
    let n = ws.len() - (d + 1) + t;
    if limit::MODEL_WORDS < n {
        return Err(too_many);
    }
    lay_second(ws, d, t, out);
    Ok(n)
}

// Check of a candidate's model.
// The four calls share the array, the copy and its `?`; one function of them by a closure would take the clauses of each call, and be no plainer.
pub fn pair_check(ws: &[u32], candidate: u32) -> Result<Counts, Refusal>
    ensures answer { checked result ≡ pair_check candidate ws.now }
    ensures alone { (us : List ℕ) → OtherWrote candidate ws.now us → checked result ≡ pair_check candidate us }
    ensures faulty { RefusedByTable candidate ws.now (checked result) }
{
    let mut model = [0u32; limit::MODEL_WORDS];
    let words = copy_model(ws, candidate, &mut model)?;
    check(&model[..words])
}

// Translate of a candidate's model.
pub fn pair_translate(ws: &[u32], candidate: u32, out: &mut [u32]) -> Result<usize, Refusal>
    ensures answer { written_of result ≡ pair_translate candidate ws.now (length out.old) }
    ensures output { out.new ≡ pair_translated candidate ws.now out.old }
    ensures room { IfOk result (λ n. n ≤ length out.new) }
    ensures front { IfOk result (λ n. take n out.new ≡ system_words (model_of candidate ws.now)) }
    ensures shared { Shares (model_of candidate ws.now) (written_of result) out.new }
    ensures alone { (us : List ℕ) → OtherWrote candidate ws.now us → (written_of result ≡ pair_translate candidate us (length out.old)) × (out.new ≡ pair_translated candidate us out.old) }
    ensures faulty { RefusedByTable candidate ws.now (written_of result) }
{
    let mut model = [0u32; limit::MODEL_WORDS];
    let words = copy_model(ws, candidate, &mut model)?;
    translate(&model[..words], out)
}

// Judge-model of a candidate's model.
pub fn pair_judge_model(ws: &[u32], candidate: u32, values: &[i32]) -> Result<Verdict, Refusal>
    ensures answer { verdict_of result ≡ pair_judge candidate ws.now values.now }
    ensures alone { (us : List ℕ) → OtherWrote candidate ws.now us → verdict_of result ≡ pair_judge candidate us values.now }
    ensures faulty { RefusedByTable candidate ws.now (verdict_of result) }
{
    let mut model = [0u32; limit::MODEL_WORDS];
    let words = copy_model(ws, candidate, &mut model)?;
    judge_model(&model[..words], values)
}

// Fill of a candidate's model.
pub fn pair_fill(
    ws: &[u32],
    candidate: u32,
    values: &[i32],
    out: &mut [i32],
) -> Result<Filling, Refusal>
    ensures answer { handed result ≡ pair_fill candidate ws.now values.now (length out.old) }
    ensures output { out.new ≡ pair_filled candidate ws.now values.now out.old }
    ensures room { IfFilled result (λ n. n ≤ length out.new) }
    ensures front { IfFilled result (λ n. take n out.new ≡ values.now ++ picks (model_of candidate ws.now) values.now) }
    ensures satisfied { Satisfied (model_of candidate ws.now) (handed result) out.new }
    ensures completes { PairHandsOver candidate ws.now values.now (handed result) out.old out.new }
    ensures alone { (us : List ℕ) → OtherWrote candidate ws.now us → (handed result ≡ pair_fill candidate us values.now (length out.old)) × (out.new ≡ pair_filled candidate us values.now out.old) }
    ensures faulty { RefusedByTable candidate ws.now (handed result) }
{
    let mut model = [0u32; limit::MODEL_WORDS];
    let words = copy_model(ws, candidate, &mut model)?;
    fill(&model[..words], values, out)
}
