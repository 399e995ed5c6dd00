// L and U of the sums of a model, worked out over a lent list of the bounds of its variables.
// The words and the place after a head stay two parameters, and that it is below 2^40 and k at most 32 clauses: `sum_size` asks nothing of the place, so that a type of both would ask more of its callers, and one without the fact would be no plainer.
#![tactic(auto)]

ghost use Rattle.std.specs.Prelude.{◌≡◌, ◌+◌, ◌<◌, ◌≤◌, nat_abs, get_or};
ghost use Rattle.integers.specs.Number.{◌⊖◌, +0};
ghost use Rattle.integers.specs.Bounds.{◌to◌, bounds_in};
ghost use Rattle.words.specs.Limit as Limit;
ghost use Rattle.words.specs.Small.{Near};
ghost use Rattle.models.specs.Codes.{code_number};
ghost use Rattle.linearsums.specs.Sum.{form_of, Fits};
ghost use Rattle.linearsums.specs.Forms.{form_number};
ghost use Rattle.linearsums.specs.Places.{code_before, form_before, sum_size, sum_number, sum_variable, sum_constant, sum_bounds, with_term, sums_up_to, SumsKept, Summable};

use arguments::{num_at, past_at, past_terms_at, size_at, var_at};
use extremes::times_ends;
use integers::{Bounds, minus, plus};
use models::code::Code;
use words::domain::{Domain, domain_of};
use words::list::{at_or, put};
use words::word::Word;

// The sum of which a rule has L and U.
#[derive(Clone, Copy, Debug, PartialEq, Eq)]
pub enum SumForm {
    // that of its terms and its number
    OfTerms,
    // a − b
    OfTwo,
}

// The sum of a builtin, where its rule has L and U of one.
#[tactic(auto, unfolding(crate::specs::Sum::form_of, integers::specs::Lists::any))]
fn form_of(code: Code) -> Option<SumForm>
    ensures { form_number result ≡ form_of (code_number code) }
{
    match code {
        Code::IntLinNe | Code::IntLinEqReif | Code::IntLinLeReif | Code::IntLinNeReif => {
            Some(SumForm::OfTerms)
        }
        Code::IntEqReif | Code::IntNeReif => Some(SumForm::OfTwo),
        _ => None,
    }
}

// The code of the constraint whose head stands before place a, 0 at the front.
// 0, as the definition has it: no builtin has that number, so that the decoding below answers none for it. An Option here would be no plainer.
#[tactic(auto, unfolding(crate::specs::Places::code_before))]
fn code_before(ws: &[u32], a: usize) -> usize
    ensures { result ≡ code_before ws.now a }
{
    if a == 0 {
        return 0;
    }
    Word::at(ws, a - 1).payload()
}

// Which sum it has.
#[tactic(auto, unfolding(crate::specs::Places::form_before), using(crate::proofs::Codes::no_form))]
fn form_before(ws: &[u32], a: usize) -> Option<SumForm>
    ensures { form_number result ≡ form_before ws.now a }
{
    form_of(Code::try_from(code_before(ws, a)).ok()?)
}

// How many terms the sum has.
#[tactic(auto, unfolding(crate::specs::Places::sum_size))]
pub fn sum_size(ws: &[u32], a: usize) -> usize
    ensures value { result ≡ sum_size ws.now a }
    ensures few { result ≤ Limit.list_length }
{
    match form_before(ws, a) {
        None => 0,
        Some(SumForm::OfTwo) => 2,
        Some(SumForm::OfTerms) => size_at(ws, a),
    }
}

// The number of term k.
#[tactic(auto, unfolding(crate::specs::Places::sum_number))]
fn sum_number(ws: &[u32], a: usize, k: usize) -> i64
    requires { (a < 1099511627776) × (k ≤ 32) }
    ensures value { result ≡ sum_number ws.now a k }
    ensures near { Near result }
{
    if form_before(ws, a) == Some(SumForm::OfTwo) {
        return if k == 0 { 1 } else { -1 };
    }
    num_at(ws, a + 1 + k)
}

// Its variable.
#[tactic(auto, unfolding(crate::specs::Places::sum_variable))]
pub fn sum_variable(ws: &[u32], a: usize, k: usize) -> usize
    requires { (a < 1099511627776) × (k ≤ 32) }
    ensures { result ≡ sum_variable ws.now a k }
{
    if form_before(ws, a) == Some(SumForm::OfTwo) {
        return var_at(ws, a + k);
    }
    var_at(ws, past_at(ws, a) + k)
}

// The constant that is taken from the sum.
#[tactic(auto, unfolding(crate::specs::Places::sum_constant))]
fn sum_constant(ws: &[u32], a: usize) -> i64
    requires { a < 1099511627776 }
    ensures value { result ≡ sum_constant ws.now a }
    ensures near { Near result }
{
    if form_before(ws, a) == Some(SumForm::OfTerms) {
        return num_at(ws, past_terms_at(ws, a));
    }
    0
}

// L and U of no terms.
pub fn sum_start(ws: &[u32], a: usize) -> Bounds
    requires { a < 1099511627776 }
    ensures value { result ≡ (+0 ⊖ sum_constant ws.now a to +0 ⊖ sum_constant ws.now a) }
    ensures lower_near { Near result.lower }
    ensures upper_near { Near result.upper }
{
    let start = minus(0, sum_constant(ws, a));
    Bounds {
        lower: start,
        upper: start,
    }
}

// L and U with term k too, whose variable has these bounds.
#[tactic(auto, unfolding(crate::specs::Places::with_term))]
pub fn sum_step(total: Bounds, ws: &[u32], a: usize, k: usize, b: Domain) -> Bounds
    requires { (a < 1099511627776) × (k ≤ 32) × Fits total }
    ensures value { result ≡ with_term total (sum_number ws.now a k) b }
    ensures lower_size { nat_abs result.lower ≤ nat_abs total.lower + 18014398509481984 }
    ensures upper_size { nat_abs result.upper ≤ nat_abs total.upper + 18014398509481984 }
{
    let n = sum_number(ws, a, k);
    Bounds {
        lower: plus(total.lower, times_ends(n, b, false)),
        upper: plus(total.upper, times_ends(n, b, true)),
    }
}

// L and U of the sum of the constraint whose arguments start at place a.
pub fn sum_bounds(ws: &[u32], a: usize, domains: &[Domain]) -> Bounds
    requires { a < 1099511627776 }
    ensures { result ≡ sum_bounds ws.now a (bounds_in domains.now) }
{
    let mut total = sum_start(ws, a);
    for k in 0..sum_size(ws, a) {
        let b = domain_of(domains, sum_variable(ws, a, k));
        total = sum_step(total, ws, a, k, b);
    }
    total
}

// The place after the head of constraint k. The heads stay one array of 256 and n, here and below: `checking` says by that array and n which sums a read model has, and a slice is another list, whose sums it would have to show to be the same; the call would be no plainer but for n.
pub fn after_head(heads: &[usize; 256], k: usize) -> usize
    requires { (k < 256) × (get_or heads.now k 0 < 1099511627776) }
    ensures { result ≡ get_or heads.now k 0 + 1 }
{
    heads[k] + 1
}

// L and U of constraint k, from this list; 0 and 0 past its end. It is `at_or` with the default of its definition, which would stand at each call.
#[tactic(auto, unfolding(integers::specs::Bounds::bounds_in))]
pub fn sum_at(sums: &[Bounds], k: usize) -> Bounds
    ensures { result ≡ bounds_in sums.now k }
{
    at_or(sums, k, Bounds { lower: 0, upper: 0 })
}

// Puts L and U of the sum of each of the n constraints, whose heads stand at these places, into a list for 256; the variables have these bounds.
pub fn model_sums(
    ws: &[u32],
    heads: &[usize; 256],
    n: usize,
    domains: &[Domain],
    sums: &mut [Bounds],
)
    requires { Summable ws.now heads.now n sums.old }
    ensures { SumsKept sums.new n (sums_up_to ws.now heads.now (bounds_in domains.now) n) }
{
    for k in 0..n {
        put(sums, k, sum_bounds(ws, after_head(heads, k), domains));
    }
}
