// A term and the constant of a row, and the variables of a product, read and judged by the values of the variables at once.
// A fault of a word comes with its place.
#![tactic(auto)]

ghost use Rattle.std.specs.Prelude.{◌≡◌, ℕ, suc, ◌+◌, ◌*◌, ◌<◌, ◌≤◌, IfOk, Err, length, nat_abs};
ghost use Rattle.integers.specs.Number.{◌⊕◌, ◌⊗◌};
ghost use Rattle.integers.specs.Terms.{value};
ghost use Rattle.words.specs.Check.{step_of};
ghost use Rattle.words.specs.Small.{Near};
ghost use Rattle.words.specs.Word.{signed};
ghost use Rattle.rowsystems.specs.Row.{product, satisfied};
ghost use Rattle.rowsystems.specs.RowSystem.{number_at, variable_at};
ghost use Rattle.rowreading.specs.Onward.{Placed, StepsTo};
ghost use Rattle.rowterms.specs.Values.{seen_step, term_step, ValuesKnown, is_true};

use integers::{equal, plus, times};
use rowfaults::{is_variable, variable_fault};
use rowreading::items::{read_product, read_term};
use rowsystems::Due;
use words::check::{is_number, number_fault};
use words::fault::{Fault, Refusal};
use words::kind::Kind;
use words::word::Word;

// Where reading goes on, and whether the item before it is true.
#[derive(Clone, Copy, Debug, PartialEq, Eq)]
pub struct Seen {
    pub at: usize,
    pub holds: bool,
}

// Whether a row is true whose terms and constant add up to a number.
#[tactic(auto, unfolding(crate::specs::Values::is_true))]
fn is_true(head: Word, total: i64) -> bool
    ensures { result ≡ is_true head total }
{
    if head.is(Kind::AtMost) {
        return total <= 0;
    }
    equal(total, 0)
}

// The value of a variable whose value is there.
#[tactic(auto, unfolding(integers::specs::Terms::value))]
pub fn known_value(values: &[i32], x: usize) -> i64
    requires { x < length values.now }
    ensures { result ≡ value values.now x }
{
    values[x] as i64
}

// A coefficient times the value of its variable.
fn term_of(values: &[i32], c: Word, x: usize) -> i64
    requires { (x < length values.now) × Near (value values.now x) }
    ensures value { result ≡ signed c ⊗ value values.now x }
    ensures size { nat_abs result ≤ 18014398509481984 }
{
    times(c.signed(), known_value(values, x))
}

// A term, both of whose words are there: its coefficient times the value of its variable, or the fault of one of the two.
pub fn see_term(ws: &[u32], n: usize, place: usize, values: &[i32]) -> Result<i64, Refusal>
    requires { ValuesKnown values.now n × (place + 1 < length ws.now) }
    ensures steps { (left : ℕ) → StepsTo ws.now n (Due.Terms (suc left)) place (Due.Terms left) (term_step place result) }
    ensures value { IfOk result (λ t. t ≡ number_at ws.now (place + 1) ⊗ value values.now (variable_at ws.now place)) }
    ensures size { IfOk result (λ t. nat_abs t ≤ 18014398509481984) }
{
    let x = Word::from(ws[place]);
    if !is_variable(n, x) {
        let fault = variable_fault(n, x);
        return Err(Refusal { fault, place });
    }
    let c = Word::from(ws[place + 1]);
    if !is_number(c) {
        let fault = number_fault(c);
        return Err(Refusal {
            fault,
            place: place + 1,
        });
    }
    Ok(term_of(values, c, x.payload()))
}

// The constant of a row, which is there, after terms that add up to a total; and whether the row is true.
pub fn see_constant(
    ws: &[u32],
    head: Word,
    n: usize,
    place: usize,
    total: i64,
) -> Result<Seen, Refusal>
    requires { (place < length ws.now) × (nat_abs total ≤ 4611686018427387904) }
    ensures step { StepsTo ws.now n (Due.Terms 0) place Due.Item (seen_step result) }
    ensures truth { IfOk result (λ seen. seen.holds ≡ is_true head (total ⊕ number_at ws.now place)) }
{
    let c = Word::from(ws[place]);
    if !is_number(c) {
        let fault = number_fault(c);
        return Err(Refusal { fault, place });
    }
    Ok(Seen {
        at: place + 1,
        holds: is_true(head, plus(total, c.signed())),
    })
}

// The refusal of a row in which the words end; where no term has a fault, the constant is missing.
pub fn see_cut(ws: &[u32], n: usize, start: usize, terms: usize) -> Refusal
    requires { Placed ws.now start × (length ws.now ≤ start + 2 * terms) }
    ensures { StepsTo ws.now n (Due.Terms terms) start Due.Item (step_of (Err result)) }
{
    let mut at = start;
    for _ in 0..terms {
        match read_term(ws, n, at) {
            Ok(next) => at = next,
            Err(refusal) => return refusal,
        }
    }
    Refusal {
        fault: Fault::WrongKind,
        place: at,
    }
}

// The result and the two factors of a product: read, and then judged.
pub fn see_factors(ws: &[u32], n: usize, at: usize, values: &[i32]) -> Result<Seen, Refusal>
    requires { Placed ws.now at × ValuesKnown values.now n }
    ensures step { StepsTo ws.now n Due.Result at Due.Item (seen_step result) }
    ensures truth { let v = variable_at ws.now in IfOk result (λ seen. seen.holds ≡ satisfied (value values.now) (product (v at) (v (at + 1)) (v (at + 2)))) }
{
    let end = read_product(ws, n, at)?;
    let r = known_value(values, Word::at(ws, at).payload());
    let f = known_value(values, Word::at(ws, at + 1).payload());
    let g = known_value(values, Word::at(ws, at + 2).payload());
    let holds = equal(r, times(f, g));
    Ok(Seen { at: end, holds })
}
