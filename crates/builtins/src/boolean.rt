// Codes 18 to 20 and 31: two variables and a Boolean one.
#![tactic(auto, unfolding(models::specs::Meaning::meaning))]

ghost use Rattle.std.specs.Prelude.{◌≡◌};
ghost use Rattle.integers.specs.Terms.{value};
ghost use Rattle.models.specs.Builtin.{bool_and, bool_or, bool_xor};
ghost use Rattle.models.specs.Meaning.{meaning};
ghost use Rattle.builtins.specs.Coded.{three};

use crate::compare;
use arguments::instance::Instance;

// Whether bool_and is true.
pub fn bool_and(instance: &Instance) -> bool
    ensures { result ≡ meaning (value instance.now.values.now) (three bool_and instance.now.args.now) }
{
    instance.is_on(2) == (instance.is_on(0) && instance.is_on(1))
}

// Whether bool_or is true.
pub fn bool_or(instance: &Instance) -> bool
    ensures { result ≡ meaning (value instance.now.values.now) (three bool_or instance.now.args.now) }
{
    instance.is_on(2) == (instance.is_on(0) || instance.is_on(1))
}

// Whether bool_xor is true.
pub fn bool_xor(instance: &Instance) -> bool
    ensures { result ≡ meaning (value instance.now.values.now) (three bool_xor instance.now.args.now) }
{
    instance.is_on(2) != compare::int_eq(instance)
}
