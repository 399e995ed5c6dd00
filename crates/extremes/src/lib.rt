// Numbers from the bounds of the variables: the least and largest of products, halves, and the members of a set.
#![tactic(auto)]

ghost use Rattle.std.specs.Prelude.{◌≡◌, ◌&&◌, ◌<◌, ◌≤◌, ℕ, ◌+◌, pos, nat_abs, length, get_or};
ghost use Rattle.std.specs.Int.Signed.{le_z, lt_z};
ghost use Rattle.integers.specs.Choice.{◌if◌else◌};
ghost use Rattle.integers.specs.Number.{◌⊕◌, ◌⊖◌, ◌⊗◌, min_z, max_z, abs_z, +0, +1};
ghost use Rattle.integers.specs.Bounds.{◌to◌, width};
ghost use Rattle.words.specs.Variables.{variables};
ghost use Rattle.words.specs.Overlay.{overlay};
ghost use Rattle.words.specs.Limit as Limit;
ghost use Rattle.words.specs.Small.{Near};
ghost use Rattle.words.specs.Word.{signed};
ghost use Rattle.models.specs.Model.{nums};
ghost use Rattle.rules.specs.Parts.{end_products, half_less, least_from, members, places};
ghost use Rattle.variables.specs.Start.{pair_bounds};

use arguments::{count_of, num_at, size_at};
use integers::{Bounds, minus, pick, plus, times};
use variables::{starts_pair, starts_variable};
use words::domain::Domain;
use words::list::put;
use words::word::Word;

// The lesser or the larger product of a number and a variable's bounds.
// `up` is a flag: `bitrows` wants the least alone, and both ends at once would work out two products and a choice more for it.
pub fn times_ends(a: i64, b: Domain, up: bool) -> i64
    requires { Near a }
    ensures value { result ≡ (max_z if up else min_z) (a ⊗ b.lower) (a ⊗ b.upper) }
    ensures size { nat_abs result ≤ 18014398509481984 }
{
    pick(times(a, b.lower()), times(a, b.upper()), up)
}

// The larger of two absolute values.
#[tactic(auto, unfolding(integers::specs::Number::max_z, integers::specs::Number::abs_z))]
pub fn larger_absolute(a: i64, b: i64) -> i64
    requires { (nat_abs a ≤ 1152921504606846976) × (nat_abs b ≤ 1152921504606846976) }
    ensures value { result ≡ max_z (abs_z a) (abs_z b) }
    ensures size { nat_abs result ≤ 1152921504606846976 }
{
    a.abs().max(b.abs())
}

// The lower bound of Z: the lesser of 0 and a lower bound.
// Two functions, here and below: `Writer::bounds` takes the lower and the upper bounds by two closures, and each is one call of the library.
#[tactic(auto, unfolding(integers::specs::Number::min_z))]
pub fn zero_lower(lower: i64) -> i64
    ensures { result ≡ min_z +0 lower }
{
    0.min(lower)
}

// Its upper bound: the larger of 0 and an upper bound.
#[tactic(auto, unfolding(integers::specs::Number::max_z))]
pub fn zero_upper(upper: i64) -> i64
    ensures { result ≡ max_z +0 upper }
{
    0.max(upper)
}

// The least or the largest of the four products of the ends of two bounds; `up` is the flag of `times_ends`.
fn end_product(a: Domain, b: Domain, up: bool) -> i64
    ensures value { result ≡ ((end_products a b).upper if up else (end_products a b).lower) }
    ensures size { nat_abs result ≤ 18014398509481984 }
{
    pick(
        times_ends(a.lower(), b, up),
        times_ends(a.upper(), b, up),
        up,
    )
}

// The least and the largest of them.
pub fn end_products(a: Domain, b: Domain) -> Bounds
    ensures value { result ≡ end_products a b }
    ensures lower_size { nat_abs result.lower ≤ 18014398509481984 }
    ensures upper_size { nat_abs result.upper ≤ 18014398509481984 }
{
    Bounds {
        lower: end_product(a, b, false),
        upper: end_product(a, b, true),
    }
}

// hi a − lo b + d. That d is −1, 0 or 1 stays a clause, here and in `fixedblocks`: it is a letter of the rule, which is added.
pub fn gap_plus(a: Domain, b: Domain, d: i64) -> i64
    requires { nat_abs d ≤ 1 }
    ensures value { result ≡ a.upper ⊖ b.lower ⊕ d }
    ensures size { nat_abs result ≤ 268435457 }
{
    plus(minus(a.upper(), b.lower()), d)
}

// How many values bounds leave.
#[tactic(auto, unfolding(integers::specs::Bounds::width))]
pub fn width_of(b: Domain) -> usize
    ensures { result ≡ width b }
{
    count_of(plus(minus(b.upper(), b.lower()), 1))
}

// The first place of a list that an index with this lower bound can have.
#[tactic(auto, unfolding(integers::specs::Number::max_z))]
pub fn first_place(lower: i64) -> i64
    requires { Near lower }
    ensures value { result ≡ max_z +1 lower }
    ensures near { Near result }
{
    1.max(lower)
}

// The last place of a list of n elements that an index with this upper bound can have.
#[tactic(auto, unfolding(integers::specs::Number::min_z))]
pub fn last_place(n: usize, upper: i64) -> i64
    ensures value { result ≡ min_z (pos n) upper }
    ensures near { Near upper → Near result }
{
    i64::try_from(n).unwrap_or(i64::MAX).min(upper)
}

// The places that an index with these bounds can have.
#[tactic(auto, unfolding(rules::specs::Parts::places))]
pub fn places_of(index: Domain, n: usize) -> Domain
    ensures { result ≡ places index n }
{
    Domain::new(first_place(index.lower()), last_place(n, index.upper()))
}

// Half of n − 1, rounded down; 0 for 0.
#[tactic(auto, unfolding(rules::specs::Parts::half_less))]
pub fn half_less(n: usize) -> i64
    ensures { result ≡ pos (half_less n) }
{
    (n.saturating_sub(1) / 2) as i64
}

// v if it is not below `from` and is below `above`, else `above`.
pub fn nearer(from: i64, v: i64, above: i64) -> i64
    ensures { result ≡ (v if le_z from v && lt_z v above else above) }
{
    if from <= v && v < above { v } else { above }
}

// The least of the numbers in the list at place i that are not below `from` and are below `above`; `above` where there is none.
// No Option: the definition answers so too, and each turn of the loop compares with what the last one answered.
// That i is no place whose sum wraps stays a clause, here and below: it is one number.
pub fn least_from(args: &[u32], i: usize, from: i64, above: i64) -> i64
    requires { i < 1099511627776 }
    ensures { result ≡ least_from (nums args.now i) from above }
{
    let mut least_yet = above;
    for k in 0..size_at(args, i) {
        least_yet = nearer(from, num_at(args, i + 1 + k), least_yet);
    }
    least_yet
}

// Puts the numbers of the list at place i that the bounds leave to the front of a list, rising and each once; how many there are.
// Two numbers and no domain: the lower one may be of any size. The list is lent and no Vec, here and below: the calls for C take no heap.
pub fn members(args: &[u32], i: usize, lower: i64, upper: i64, out: &mut [i64]) -> usize
    requires { (i < 1099511627776) × Near upper }
    ensures count { result ≡ length (members (nums args.now i) (lower to upper)) }
    ensures listed { out.new ≡ overlay out.old 0 (members (nums args.now i) (lower to upper)) }
    ensures near { (k : ℕ) → nat_abs (get_or (members (nums args.now i) (lower to upper)) k +0) ≤ Limit.half + 1 }
{
    let above = plus(upper, 1);
    let n = size_at(args, i);
    let mut from = lower;
    for k in 0..n {
        let v = least_from(args, i, from, above);
        if upper < v {
            return k;
        }
        put(out, k, v);
        from = plus(v, 1);
    }
    n
}

// A signed payload, which is near 0. `Word::signed` does not say so.
fn near_of(w: Word) -> i64
    ensures value { result ≡ signed w }
    ensures near { Near result }
{
    w.signed()
}

// The bounds of the variable that a word starts; a pair's upper bound is the next word.
#[tactic(auto, unfolding(variables::specs::Start::pair_bounds))]
pub fn bounds_from(w: Word, next: Word) -> Domain
    ensures { result ≡ pair_bounds w next }
{
    if starts_pair(w) {
        return Domain::new(near_of(w), near_of(next));
    }
    Domain::new(0, 1)
}

// Puts the bounds of the variables to the front of a list; how many variables there are. The list is of domains, since each element that is put is one.
// n is counted by hand: it counts the variables, not the words, and goes on where the list is full.
pub fn keep_bounds(ws: &[u32], domains: &mut [Domain]) -> usize
    ensures count { result ≡ length (variables ws.now) }
    ensures kept { domains.new ≡ overlay domains.old 0 (variables ws.now) }
{
    let mut n = 0;
    for (i, &w) in ws.iter().enumerate() {
        let word = Word::from(w);
        if starts_variable(word) {
            put(domains, n, bounds_from(word, Word::at(ws, i + 1)));
            n += 1;
        }
    }
    n
}
