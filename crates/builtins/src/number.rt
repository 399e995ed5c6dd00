// Codes 6 to 9, 29, 37 and 38: arithmetic of variables.
#![tactic(auto, unfolding(models::specs::Meaning::meaning))]

ghost use Rattle.std.specs.Prelude.{◌≡◌};
ghost use Rattle.integers.specs.Terms.{value};
ghost use Rattle.models.specs.Builtin.{int_plus, int_times, int_abs, int_max, int_min, int_div, int_mod};
ghost use Rattle.models.specs.Meaning.{meaning};
ghost use Rattle.builtins.specs.Coded.{two, three};

use arguments::instance::Instance;
use arguments::near::NearInstance;
use integers::{equal, largest, least, plus, quotient, remainder, times};

// Whether int_plus is true.
pub fn int_plus(near: &NearInstance) -> bool
    ensures { result ≡ meaning (value near.now.instance.values.now) (three int_plus near.now.instance.args.now) }
{
    let sum = plus(near.value(0), near.value(1));
    equal(sum, near.value(2))
}

// Whether int_times is true.
pub fn int_times(near: &NearInstance) -> bool
    ensures { result ≡ meaning (value near.now.instance.values.now) (three int_times near.now.instance.args.now) }
{
    let product = times(near.value(0), near.value(1));
    equal(product, near.value(2))
}

// Whether int_abs is true.
#[tactic(auto, unfolding(models::specs::Meaning::meaning, integers::specs::Number::abs_z))]
pub fn int_abs(near: &NearInstance) -> bool
    ensures { result ≡ meaning (value near.now.instance.values.now) (two int_abs near.now.instance.args.now) }
{
    equal(near.value(0).abs(), near.value(1))
}

// Whether int_max is true.
pub fn int_max(instance: &Instance) -> bool
    ensures { result ≡ meaning (value instance.now.values.now) (three int_max instance.now.args.now) }
{
    let largest = largest(instance.value(0), instance.value(1));
    equal(largest, instance.value(2))
}

// Whether int_min is true.
pub fn int_min(instance: &Instance) -> bool
    ensures { result ≡ meaning (value instance.now.values.now) (three int_min instance.now.args.now) }
{
    let least = least(instance.value(0), instance.value(1));
    equal(least, instance.value(2))
}

// Whether int_div is true; it is not for d=0.
#[tactic(auto, unfolding(models::specs::Meaning::meaning, models::specs::Meaning::quotient), using(integers::proofs::Fits::above_zero))]
pub fn int_div(near: &NearInstance) -> bool
    ensures { result ≡ meaning (value near.now.instance.values.now) (three int_div near.now.instance.args.now) }
{
    let d = near.value(1);
    !equal(d, 0) && equal(quotient(near.value(0), d), near.value(2))
}

// Whether int_mod is true; it is not for d=0.
#[tactic(auto, unfolding(models::specs::Meaning::meaning, models::specs::Meaning::remainder), using(integers::proofs::Fits::above_zero))]
pub fn int_mod(near: &NearInstance) -> bool
    ensures { result ≡ meaning (value near.now.instance.values.now) (three int_mod near.now.instance.args.now) }
{
    let d = near.value(1);
    !equal(d, 0) && equal(remainder(near.value(0), d), near.value(2))
}
