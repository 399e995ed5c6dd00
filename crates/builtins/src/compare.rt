// Codes 1 to 5, 14, 16, 17, 30 and 34 to 36: comparisons of two variables.
#![tactic(auto, unfolding(models::specs::Meaning::meaning))]

ghost use Rattle.std.specs.Prelude.{◌≡◌};
ghost use Rattle.integers.specs.Terms.{value};
ghost use Rattle.models.specs.Builtin.{int_eq, int_le, int_lt, int_le_reif, int_eq_reif, int_lt_reif};
ghost use Rattle.models.specs.Meaning.{meaning};
ghost use Rattle.builtins.specs.Coded.{two, three};

use arguments::instance::Instance;
use integers::equal;

// Whether int_eq is true.
pub fn int_eq(instance: &Instance) -> bool
    ensures { result ≡ meaning (value instance.now.values.now) (two int_eq instance.now.args.now) }
{
    equal(instance.value(0), instance.value(1))
}

// Whether int_le is true.
pub fn int_le(instance: &Instance) -> bool
    ensures { result ≡ meaning (value instance.now.values.now) (two int_le instance.now.args.now) }
{
    instance.value(0) <= instance.value(1)
}

// Whether int_lt is true.
pub fn int_lt(instance: &Instance) -> bool
    ensures { result ≡ meaning (value instance.now.values.now) (two int_lt instance.now.args.now) }
{
    instance.value(0) < instance.value(1)
}

// Whether int_le_reif is true.
pub fn int_le_reif(instance: &Instance) -> bool
    ensures { result ≡ meaning (value instance.now.values.now) (three int_le_reif instance.now.args.now) }
{
    instance.is_on(2) == int_le(instance)
}

// Whether int_lt_reif is true.
pub fn int_lt_reif(instance: &Instance) -> bool
    ensures { result ≡ meaning (value instance.now.values.now) (three int_lt_reif instance.now.args.now) }
{
    instance.is_on(2) == int_lt(instance)
}

// Whether int_eq_reif is true.
pub fn int_eq_reif(instance: &Instance) -> bool
    ensures { result ≡ meaning (value instance.now.values.now) (three int_eq_reif instance.now.args.now) }
{
    instance.is_on(2) == int_eq(instance)
}
