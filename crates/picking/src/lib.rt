// What fill writes for the auxiliaries of one constraint.
#![tactic(auto, unfolding(rules::specs::Pick::bit_of, rules::specs::Pick::pick, rules::specs::Pick::sign_pick, rules::specs::Pick::signed_pick, rules::specs::Pick::division_pick, rules::specs::Pick::left_over_pick, models::specs::Model::builtin, models::specs::Model::builtins), using(crate::proofs::Puts::puts))]

ghost use Rattle.std.specs.Prelude.{◌≡◌, true, [], ◌∷◌, ◌++◌, ◌+◌, ◌*◌, ◌<◌, ◌≤◌, pos, set, get_or, length};
ghost use Rattle.std.specs.Int.Signed.{quot_z};
ghost use Rattle.integers.specs.Choice.{◌if◌else◌};
ghost use Rattle.integers.specs.Number.{◌⊕◌, ◌⊖◌, ◌⊗◌, ◌≟◌, +0, +1};
ghost use Rattle.integers.specs.Bounds.{bounds_in, values};
ghost use Rattle.integers.specs.Terms.{value, sum};
ghost use Rattle.words.specs.Word.{in_range};
ghost use Rattle.words.specs.Limit as Limit;
ghost use Rattle.words.specs.Small.{Near, Small};
ghost use Rattle.models.specs.Codes.{code_number};
ghost use Rattle.models.specs.Model.{var, num, size, terms, past_terms};
ghost use Rattle.rules.specs.Parts.{places};
ghost use Rattle.rules.specs.Pick.{sign_pick, signed_pick, first_bit, division_pick};
ghost use Rattle.rules.specs.Power.{power_values};
ghost use Rattle.picking.specs.Output.{Room, Ranged, Pickable, Puts};
ghost use Rattle.picking.specs.Picked.{picks_of, plain_picks, product_picks, new_picks, shared_picks, picks_after};
ghost use Rattle.picking.specs.Powered.{PowersPut};
ghost use Rattle.picking.specs.Only.{only_at, FirstAt};

use arguments::instance::Instance;
use arguments::near::NearInstance;
use arguments::{count_of, exponent_at, num_at, past_terms_at, size_at, var_at};
use encodings::is_shared;
use extremes::{half_less, members, places_of, width_of};
use integers::{equal, minus, quotient, times};
use models::code::Code;
use models::constraint::Constraint;
use words::domain::{Domain, domain_of};
use words::limit;
use words::list::{at_or, put};

// Fill's output: a lent list, and the place where the next number goes.
// Its methods ask for room, which no invariant has: it is for as many numbers as each puts, so a type would be no plainer.
#[derive(Drop)]
pub struct Output<'a> {
    pub list: &'a mut [i32],
    pub at: usize,
}

impl<'a> Output<'a> {
    // Puts a number, if the list has its place.
    #[tactic(auto, unfolding(words::specs::Overlay::overlay))]
    pub fn put(&mut self, v: i64)
        requires { Room 1 self.old × (in_range v ≡ true) }
        ensures { Puts self.old (v ∷ []) self.new }
    {
        put(self.list, self.at, v as i32);
        self.at += 1;
    }

    // A number where the test is true, else 0.
    fn put_if(&mut self, test: bool, v: i64)
        requires { Room 1 self.old × (in_range (v if test else +0) ≡ true) }
        ensures { Puts self.old ((v if test else +0) ∷ []) self.new }
    {
        self.put(if test { v } else { 0 })
    }

    // 1 where the test is true, else 0.
    fn bit(&mut self, test: bool)
        requires { Room 1 self.old }
        ensures { Puts self.old ((+1 if test else +0) ∷ []) self.new }
    {
        self.put_if(test, 1)
    }

    // A number k places on, if the list has that one; the place stays.
    // `put` and `put_if` in `only` moved the place with each number, and fill took 4 in 100 longer: tried, so that these two stand beside them for it.
    fn put_at(&mut self, k: usize, v: i64)
        requires { Room (k + 1) self.old × (in_range v ≡ true) }
        ensures list { self.new.list.now ≡ set self.old.list.now (self.old.at + k) v }
        ensures place { self.new.at ≡ self.old.at }
        ensures same_list { self.new.list.ghost_name ≡ self.old.list.ghost_name }
    {
        put(self.list, self.at + k, v as i32)
    }

    // A number k places on where the test is true, else 0.
    fn put_at_if(&mut self, k: usize, test: bool, v: i64)
        requires { Room (k + 1) self.old × (in_range (v if test else +0) ≡ true) }
        ensures list { self.new.list.now ≡ set self.old.list.now (self.old.at + k) (v if test else +0) }
        ensures place { self.new.at ≡ self.old.at }
        ensures same_list { self.new.list.ghost_name ≡ self.old.list.ghost_name }
    {
        self.put_at(k, if test { v } else { 0 })
    }

    // n numbers: v at the h-th, counted from 0, and 0 at all others. The place moves once, after them: see `put_at`.
    // h is a number and no Option: a value past the last label has a place too, which is n or more, so an Option would be no plainer.
    fn only(&mut self, n: usize, h: usize, v: i64)
        requires { Room n self.old × Ranged (only_at n h v) }
        ensures { Puts self.old (only_at n h v) self.new }
    {
        for k in 0..n {
            self.put_at_if(k, k == h, v);
        }
        self.at += n;
    }

    // 1 and x for a negative x, else 0 and 0.
    fn sign(&mut self, x: i64)
        requires { Room 2 self.old × Ranged (sign_pick x) }
        ensures { Puts self.old (sign_pick x) self.new }
    {
        let negative = x < 0;
        self.bit(negative);
        self.put_if(negative, x)
    }

    // x, then its sign.
    fn signed(&mut self, x: i64)
        requires { Room 3 self.old × Ranged (signed_pick x) }
        ensures { Puts self.old (signed_pick x) self.new }
    {
        self.put(x);
        self.sign(x)
    }

    // A bit for each value of the bounds: 1 for v.
    fn labels(&mut self, labels: Domain, v: i64)
        requires { Room 1000000000 self.old × Near v }
        ensures puts { Puts self.old (first_bit (λ j. j ≟ v) (values labels)) self.new }
        ensures few { self.new.at ≤ self.old.at + 268435457 }
    {
        let n = width_of(labels);
        let h = place_of(v, labels.lower(), n);
        self.only(n, h, 1)
    }

    // n bits, 1 at the h-th, then the products of the bits and numbers of which the h-th is x.
    fn gated(&mut self, n: usize, h: usize, x: i64)
        requires { Room (n + n) self.old × Ranged (only_at n h +1 ++ only_at n h x) }
        ensures { Puts self.old (only_at n h +1 ++ only_at n h x) self.new }
    {
        self.only(n, h, 1);
        self.only(n, h, x)
    }

    // int_div, int_mod (37, 38): whether n is not negative, whether d is positive, d×q, and whether both.
    fn division(&mut self, n: i64, d: i64, q: i64)
        requires { Room 4 self.old × Near d × Near q × Ranged (division_pick n d q) }
        ensures { Puts self.old (division_pick n d q) self.new }
    {
        let alpha = 0 <= n;
        let beta = 0 < d;
        self.bit(alpha);
        self.bit(beta);
        self.put(times(d, q));
        self.bit(alpha & beta)
    }

    // A product, which it answers.
    fn product(&mut self, a: i64, b: i64) -> i64
        requires { Room 1 self.old × Near a × Near b × (in_range (a ⊗ b) ≡ true) }
        ensures puts { Puts self.old ((a ⊗ b) ∷ []) self.new }
        ensures value { result ≡ a ⊗ b }
        ensures near { Near result }
    {
        let v = times(a, b);
        self.put(v);
        v
    }

    // The products of a power from 1 on, which it answers: by recursion on the exponent, which halves until it is 1, and no loop, as document 02 prescribes.
    // `builtins` cuts each square where this writes it; one function of both would take that step as a closure with its facts, and be no plainer.
    fn powers(&mut self, x: i64, k: usize) -> i64
        requires { Room (20 * k) self.old × Near x × (1 ≤ k) × (k ≤ Limit.exponent) × Ranged (power_values x k).picked }
        ensures { PowersPut self.old self.new result (power_values x k) (20 * k) }
    {
        if k < 2 {
            return x;
        }
        let half = self.powers(x, k / 2);
        let square = self.product(half, half);
        if k % 2 == 0 {
            return square;
        }
        self.product(x, square)
    }
}

// The place of v among n numbers that rise from the first one by 1, with no search; n for a v below them.
// It is no Option: a v above them has a place from n on, and `Output::only` writes no number at either, so an Option would be no plainer.
fn place_of(v: i64, first: i64, n: usize) -> usize
    requires { Near v × Near first }
    ensures { FirstAt (λ k. first ⊕ pos k ≟ v) n result }
{
    if v < first {
        return n;
    }
    count_of(minus(v, first))
}

// The place of the first variable in the list at place i that has the value v; the list's length if none has, since `Output::only` writes no number at that place, and an Option would be no plainer; `pick_maximum` reads a value there, which is written nowhere.
fn first_equal(near: &NearInstance, i: usize, v: i64) -> usize
    requires { i < 1099511627776 }
    ensures size { result ≤ 32 }
    ensures first { FirstAt (λ k. value near.now.instance.values.now (var near.now.instance.args.now (i + 1 + k)) ≟ v) (size near.now.instance.args.now i) result }
{
    let n = size_at(near.instance.args, i);
    for k in 0..n {
        if equal(near.value(i + 1 + k), v) {
            return k;
        }
    }
    n
}

// The sum less the constant of a linear constraint.
fn sum_less(near: &NearInstance) -> i64
    ensures { result ≡ sum (value near.now.instance.values.now) (terms near.now.instance.args.now 0) ⊖ num near.now.instance.args.now (past_terms near.now.instance.args.now 0) }
{
    minus(
        near.sum(0),
        num_at(near.instance.args, past_terms_at(near.instance.args, 0)),
    )
}

// The functions below take `output`, the instance and the bounds one by one: some take no bounds, and `output` alone is changed, so a struct of the three would be no plainer.

// int_lin_ne, int_lin_eq_reif, int_lin_ne_reif (12, 13, 32): the sum less the constant, and its sign.
fn pick_linear(output: &mut Output, near: &NearInstance)
    requires { Pickable output.old (plain_picks near.now.instance 12) }
    ensures { Puts output.old (plain_picks near.now.instance 12) output.new }
{
    output.signed(sum_less(near))
}

// The product of the values of the variables at places i and j.
fn values_product(near: &NearInstance, i: usize, j: usize) -> i64
    ensures { result ≡ value near.now.instance.values.now (var near.now.instance.args.now i) ⊗ value near.now.instance.values.now (var near.now.instance.args.now j) }
{
    times(near.value(i), near.value(j))
}

// int_max, int_min (9, 29): whether a is not c.
fn pick_max(output: &mut Output, near: &NearInstance)
    requires { Pickable output.old (plain_picks near.now.instance 9) }
    ensures { Puts output.old (plain_picks near.now.instance 9) output.new }
{
    output.bit(!equal(near.value(0), near.value(2)))
}

// int_eq_reif, int_ne_reif (14, 31): a less b, and its sign.
fn pick_difference(output: &mut Output, near: &NearInstance)
    requires { Pickable output.old (plain_picks near.now.instance 14) }
    ensures { Puts output.old (plain_picks near.now.instance 14) output.new }
{
    output.signed(minus(near.value(0), near.value(1)))
}

// bool_xor, bool_eq_reif (20, 34): the products of r with a and with b.
fn pick_xor(output: &mut Output, near: &NearInstance)
    requires { Pickable output.old (plain_picks near.now.instance 20) }
    ensures { Puts output.old (plain_picks near.now.instance 20) output.new }
{
    output.put(values_product(near, 2, 0));
    output.put(values_product(near, 2, 1))
}

// array_bool_xor (23): half of one less than how many are 1.
fn pick_odd(output: &mut Output, near: &NearInstance)
    requires { Pickable output.old (plain_picks near.now.instance 23) }
    ensures { Puts output.old (plain_picks near.now.instance 23) output.new }
{
    output.put(half_less(near.instance.how_many(0, 1)))
}

// The bounds of the variable at place 0.
fn bounds_of_first(args: &[u32], domains: &[Domain]) -> Domain
    ensures { result ≡ bounds_in domains.now (var args.now 0) }
{
    domain_of(domains, var_at(args, 0))
}

// array_int_element, array_var_int_element (24, 25): the labels, which are the places that i can have.
fn labels_of(args: &[u32], domains: &[Domain]) -> Domain
    ensures { result ≡ places (bounds_in domains.now (var args.now 0)) (size args.now 1) }
{
    places_of(bounds_of_first(args, domains), size_at(args, 1))
}

// array_int_element (24): a bit for each label, 1 for i.
fn pick_element(output: &mut Output, near: &NearInstance, domains: &[Domain])
    requires { Room 1000000000 output.old }
    ensures puts { Puts output.old (picks_of domains.now near.now.instance 24) output.new }
    ensures few { output.new.at ≤ output.old.at + 268435457 }
{
    output.labels(labels_of(near.instance.args, domains), near.value(0))
}

// array_var_int_element (25): the products of the bits and the elements.
fn pick_products(output: &mut Output, near: &NearInstance, domains: &[Domain])
    requires { Room 1000000000 output.old × Ranged (product_picks domains.now near.now.instance) }
    ensures { Puts output.old (product_picks domains.now near.now.instance) output.new }
{
    let labels = labels_of(near.instance.args, domains);
    let n = width_of(labels);
    let i = near.value(0);
    let h = place_of(i, labels.lower(), n);
    output.only(n, h, near.value(1 + count_of(i)))
}

// array_var_int_element (25): a bit for each label, 1 for i; the products of the bits and the elements.
fn pick_var_element(output: &mut Output, near: &NearInstance, domains: &[Domain])
    requires { Pickable output.old (picks_of domains.now near.now.instance 25) }
    ensures { Puts output.old (picks_of domains.now near.now.instance 25) output.new }
{
    pick_element(output, near, domains);
    pick_products(output, near, domains)
}

// array_int_maximum, array_int_minimum (26, 33): a bit for each element, 1 for the first that is m; the products of the bits and the elements.
fn pick_maximum(output: &mut Output, near: &NearInstance)
    requires { Pickable output.old (plain_picks near.now.instance 26) }
    ensures { Puts output.old (plain_picks near.now.instance 26) output.new }
{
    let h = first_equal(near, 1, near.value(0));
    output.gated(size_at(near.instance.args, 1), h, near.value(2 + h))
}

// The place of the first number that is v; the list's length if none is, as in `first_equal`.
// That one reads the value of a variable at a place after i, which asks that the place is one of the list's. One function of both would take the test as a closure with that clause and what it answers, and be no plainer.
fn first_number(numbers: &[i64], v: i64) -> usize
    ensures { FirstAt (λ k. get_or numbers.now k +0 ≟ v) (length numbers.now) result }
{
    numbers
        .iter()
        .position(|&n| equal(n, v))
        .unwrap_or(numbers.len())
}

// set_in (27): a bit for each member of the set inside x's bounds, 1 for x.
fn pick_member(output: &mut Output, near: &NearInstance, domains: &[Domain])
    requires { Room 1000000000 output.old }
    ensures { Puts output.old (picks_of domains.now near.now.instance 27) output.new }
{
    // fixed memory: as many numbers as a set may have
    let mut inside = [0i64; limit::LIST_LENGTH];
    let x = bounds_of_first(near.instance.args, domains);
    let n = members(near.instance.args, 1, x.lower(), x.upper(), &mut inside);
    let h = first_number(&inside[..n], near.value(0));
    output.only(n, h, 1)
}

// set_in_reif (28): a bit for each value of x's bounds, 1 for x.
// It and `pick_element` are one line each that differ in the bounds: one with a closure would be no plainer.
fn pick_set_reif(output: &mut Output, near: &NearInstance, domains: &[Domain])
    requires { Room 1000000000 output.old }
    ensures puts { Puts output.old (picks_of domains.now near.now.instance 28) output.new }
    ensures few { output.new.at ≤ output.old.at + 268435457 }
{
    output.labels(bounds_of_first(near.instance.args, domains), near.value(0))
}

// int_div (37): the signs and the product of the division.
fn pick_div(output: &mut Output, near: &NearInstance)
    requires { Pickable output.old (plain_picks near.now.instance 37) }
    ensures { Puts output.old (plain_picks near.now.instance 37) output.new }
{
    output.division(near.value(0), near.value(1), near.value(2))
}

// The quotient, 0 by zero.
#[tactic(auto, using(crate::proofs::Division::divisions))]
fn quotient_of(n: i64, d: i64) -> i64
    requires { Near n }
    ensures value { result ≡ quot_z n d }
    ensures near { Near result }
{
    if equal(d, 0) { 0 } else { quotient(n, d) }
}

// int_mod (38): the quotient, then as for int_div.
fn pick_mod(output: &mut Output, near: &NearInstance)
    requires { Pickable output.old (plain_picks near.now.instance 38) }
    ensures { Puts output.old (plain_picks near.now.instance 38) output.new }
{
    let n = near.value(0);
    let d = near.value(1);
    let q = quotient_of(n, d);
    output.put(q);
    output.division(n, d, q)
}

// int_pow (39): the products of the power, none for k=0.
fn pick_pow(output: &mut Output, near: &NearInstance)
    requires { Pickable output.old (plain_picks near.now.instance 39) }
    ensures { Puts output.old (plain_picks near.now.instance 39) output.new }
{
    let x = near.value(0);
    match exponent_at(near.instance.args, 1) {
        0 => (),
        k => {
            output.powers(x, k);
        }
    }
}

// What fill writes for the auxiliaries of a constraint over no shared variable.
fn pick_block(output: &mut Output, code: Code, near: &NearInstance, domains: &[Domain])
    requires { Pickable output.old (picks_of domains.now near.now.instance (code_number code)) }
    ensures { Puts output.old (picks_of domains.now near.now.instance (code_number code)) output.new }
{
    match code {
        Code::IntNe => output.bit(near.value(1) < near.value(0)),
        Code::IntTimes => output.put(values_product(near, 0, 1)),
        Code::IntAbs => output.sign(near.value(0)),
        Code::IntMax | Code::IntMin => pick_max(output, near),
        Code::IntLinNe | Code::IntLinEqReif | Code::IntLinNeReif => pick_linear(output, near),
        Code::IntLinLeReif => output.put(sum_less(near)),
        Code::IntEqReif | Code::IntNeReif => pick_difference(output, near),
        Code::BoolXor | Code::BoolEqReif => pick_xor(output, near),
        Code::ArrayBoolXor => pick_odd(output, near),
        Code::ArrayIntElement => pick_element(output, near, domains),
        Code::ArrayVarIntElement => pick_var_element(output, near, domains),
        Code::ArrayIntMaximum | Code::ArrayIntMinimum => pick_maximum(output, near),
        Code::SetIn => pick_member(output, near, domains),
        Code::SetInReif => pick_set_reif(output, near, domains),
        Code::IntDiv => pick_div(output, near),
        Code::IntMod => pick_mod(output, near),
        Code::IntPow => pick_pow(output, near),
        // an arm of its own: with those below the proof did not close
        Code::IntLe => (),
        Code::IntEq | Code::IntLt | Code::IntLeReif | Code::IntLtReif => (),
        Code::IntPlus | Code::IntLinEq | Code::IntLinLe => (),
        Code::Bool2int | Code::BoolNot | Code::BoolAnd | Code::BoolOr | Code::BoolClause => (),
        Code::BoolLeReif | Code::BoolLtReif | Code::ArrayBoolAnd => (),
    }
}

// A bit for each value of a shared variable, 1 for its value, where the bits are new.
// 0 is none in the record: see `encodings::record_encoding`.
fn pick_new_bits(output: &mut Output, near: &NearInstance, domains: &[Domain], encoded: &[usize])
    requires { Room 1000000000 output.old }
    ensures puts { Puts output.old (new_picks domains.now encoded.now near.now.instance) output.new }
    ensures few { output.new.at ≤ output.old.at + 268435457 }
{
    if at_or(encoded, var_at(near.instance.args, 0), 0) == 0 {
        pick_set_reif(output, near, domains)
    }
}

// array_var_int_element (25) over a shared variable: the new bits, then the products.
// It and `pick_var_element` are two lines each that differ in the first: one with a closure would be no plainer.
fn pick_shared_var_element(
    output: &mut Output,
    near: &NearInstance,
    domains: &[Domain],
    encoded: &[usize],
)
    requires { Pickable output.old (shared_picks domains.now encoded.now near.now.instance 25) }
    ensures { Puts output.old (shared_picks domains.now encoded.now near.now.instance 25) output.new }
{
    pick_new_bits(output, near, domains, encoded);
    pick_products(output, near, domains)
}

// What fill writes for the auxiliaries of a constraint over a shared variable. No other code chooses by a variable.
#[tactic(auto, unfolding(encodings::specs::Uses::choice_of, rules::specs::Shared::choice, rules::specs::Shared::shared_pick), using(crate::proofs::Puts::puts))]
fn pick_shared(
    output: &mut Output,
    code: Code,
    near: &NearInstance,
    domains: &[Domain],
    encoded: &[usize],
)
    requires { Pickable output.old (shared_picks domains.now encoded.now near.now.instance (code_number code)) }
    ensures { Puts output.old (shared_picks domains.now encoded.now near.now.instance (code_number code)) output.new }
{
    match code {
        Code::ArrayVarIntElement => pick_shared_var_element(output, near, domains, encoded),
        Code::ArrayIntElement | Code::SetIn | Code::SetInReif => {
            pick_new_bits(output, near, domains, encoded)
        }
        _ => (),
    }
}

// What fill writes for the auxiliaries of a constraint, given the counted uses and the record of encoded variables.
// These lists come one by one and not as `encodings::context::Context`, which keeps more of the record than is asked here.
pub fn pick_constraint(
    output: &mut Output,
    constraint: &Constraint,
    values: &[i32],
    domains: &[Domain],
    uses: &[usize],
    encoded: &[usize],
)
    requires small { Small values.now }
    requires picks { Pickable output.old (picks_after domains.now uses.now encoded.now values.now (code_number constraint.now.code) constraint.now.args.now) }
    ensures { Puts output.old (picks_after domains.now uses.now encoded.now values.now (code_number constraint.now.code) constraint.now.args.now) output.new }
{
    let near = NearInstance {
        instance: Instance {
            args: constraint.args,
            values,
        },
    };
    if is_shared(constraint, uses) {
        pick_shared(output, constraint.code, &near, domains, encoded)
    } else {
        pick_block(output, constraint.code, &near, domains)
    }
}
