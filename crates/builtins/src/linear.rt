// Sums of terms compared with a number.
#![tactic(auto, unfolding(models::specs::Meaning::meaning))]

ghost use Rattle.std.specs.Prelude.{◌≡◌, ◌+◌};
ghost use Rattle.integers.specs.Terms.{value};
ghost use Rattle.models.specs.Builtin.{int_lin_eq, int_lin_le, int_lin_eq_reif, int_lin_ne_reif, int_lin_le_reif};
ghost use Rattle.models.specs.Meaning.{meaning, on};
ghost use Rattle.models.specs.Model.{var, past_terms};
ghost use Rattle.builtins.specs.Coded.{linear, linear_reified};

use arguments::instance::Instance;
use arguments::near::NearInstance;
use arguments::{num_at, past_terms_at};
use integers::equal;

// Whether int_lin_eq is true.
pub fn int_lin_eq(near: &NearInstance) -> bool
    ensures { result ≡ meaning (value near.now.instance.values.now) (linear int_lin_eq near.now.instance.args.now) }
{
    let constant = num_at(near.instance.args, past_terms_at(near.instance.args, 0));
    equal(near.sum(0), constant)
}

// Whether int_lin_le is true.
pub fn int_lin_le(near: &NearInstance) -> bool
    ensures { result ≡ meaning (value near.now.instance.values.now) (linear int_lin_le near.now.instance.args.now) }
{
    let constant = num_at(near.instance.args, past_terms_at(near.instance.args, 0));
    near.sum(0) <= constant
}

// Whether the variable after the number is 1.
fn is_reified(instance: &Instance) -> bool
    ensures { let ws = instance.now.args.now in result ≡ on (value instance.now.values.now) (var ws (past_terms ws 0 + 1)) }
{
    instance.is_on(past_terms_at(instance.args, 0) + 1)
}

// Whether int_lin_eq_reif is true.
pub fn int_lin_eq_reif(near: &NearInstance) -> bool
    ensures { result ≡ meaning (value near.now.instance.values.now) (linear_reified int_lin_eq_reif near.now.instance.args.now) }
{
    is_reified(&near.instance) == int_lin_eq(near)
}

// Whether int_lin_ne_reif is true.
pub fn int_lin_ne_reif(near: &NearInstance) -> bool
    ensures { result ≡ meaning (value near.now.instance.values.now) (linear_reified int_lin_ne_reif near.now.instance.args.now) }
{
    is_reified(&near.instance) != int_lin_eq(near)
}

// Whether int_lin_le_reif is true.
pub fn int_lin_le_reif(near: &NearInstance) -> bool
    ensures { result ≡ meaning (value near.now.instance.values.now) (linear_reified int_lin_le_reif near.now.instance.args.now) }
{
    is_reified(&near.instance) == int_lin_le(near)
}
