// Codes 24 to 28 and 33: elements, maximum and minimum of a list, membership.
#![tactic(auto, unfolding(models::specs::Meaning::meaning))]

ghost use Rattle.std.specs.Prelude.{◌≡◌, ◌≤◌, IfSome};
ghost use Rattle.integers.specs.Terms.{value};
ghost use Rattle.words.specs.Limit as Limit;
ghost use Rattle.models.specs.Builtin.{array_int_element, array_var_int_element, array_int_maximum, array_int_minimum, set_in, set_in_reif};
ghost use Rattle.models.specs.Model.{var, vars, nums, past, size};
ghost use Rattle.models.specs.Meaning.{meaning};
ghost use Rattle.builtins.specs.Coded.{index_in};

use arguments::instance::Instance;
use arguments::{count_of, is_member, num_at, past_at, size_at};
use integers::equal;

// The value of the variable at place 0 as a place in the list at place 1, counted from 1, where the list has such a place.
#[tactic(auto, unfolding(crate::specs::Coded::index_in))]
fn index_of(instance: &Instance) -> Option<usize>
    ensures size { IfSome result (λ k. k ≤ Limit.list_length) }
    ensures value { let ws = instance.now.args.now in result ≡ index_in (size ws 1) (value instance.now.values.now (var ws 0)) }
{
    let k = count_of(instance.value(0));
    if 1 <= k && k <= size_at(instance.args, 1) {
        Some(k)
    } else {
        None
    }
}

// Whether array_int_element is true.
pub fn array_int_element(instance: &Instance) -> bool
    ensures { let ws = instance.now.args.now in result ≡ meaning (value instance.now.values.now) (array_int_element (var ws 0) (nums ws 1) (var ws (past ws 1))) }
{
    match index_of(instance) {
        Some(k) => equal(
            num_at(instance.args, 1 + k),
            instance.value(past_at(instance.args, 1)),
        ),
        None => false,
    }
}

// Whether array_var_int_element is true.
pub fn array_var_int_element(instance: &Instance) -> bool
    ensures { let ws = instance.now.args.now in result ≡ meaning (value instance.now.values.now) (array_var_int_element (var ws 0) (vars ws 1) (var ws (past ws 1))) }
{
    match index_of(instance) {
        Some(k) => equal(
            instance.value(1 + k),
            instance.value(past_at(instance.args, 1)),
        ),
        None => false,
    }
}

// Whether array_int_maximum is true.
#[tactic(auto, unfolding(models::specs::Meaning::meaning, models::specs::Meaning::maximum), using(crate::proofs::Element::mapped))]
pub fn array_int_maximum(instance: &Instance) -> bool
    ensures { let ws = instance.now.args.now in result ≡ meaning (value instance.now.values.now) (array_int_maximum (var ws 0) (vars ws 1)) }
{
    let m = instance.value(0);
    instance.any_equal(1, m) && instance.none_past(1, m, true)
}

// Whether array_int_minimum is true.
#[tactic(auto, unfolding(models::specs::Meaning::meaning, models::specs::Meaning::minimum), using(crate::proofs::Element::mapped))]
pub fn array_int_minimum(instance: &Instance) -> bool
    ensures { let ws = instance.now.args.now in result ≡ meaning (value instance.now.values.now) (array_int_minimum (var ws 0) (vars ws 1)) }
{
    let m = instance.value(0);
    instance.any_equal(1, m) && instance.none_past(1, m, false)
}

// Whether set_in is true.
pub fn set_in(instance: &Instance) -> bool
    ensures { result ≡ meaning (value instance.now.values.now) (set_in (var instance.now.args.now 0) (nums instance.now.args.now 1)) }
{
    is_member(instance.args, 1, instance.value(0))
}

// Whether set_in_reif is true.
pub fn set_in_reif(instance: &Instance) -> bool
    ensures { let ws = instance.now.args.now in result ≡ meaning (value instance.now.values.now) (set_in_reif (var ws 0) (nums ws 1) (var ws (past ws 1))) }
{
    instance.is_on(past_at(instance.args, 1)) == set_in(instance)
}
