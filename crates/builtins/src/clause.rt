// Codes 21 to 23: lists of Boolean variables.
#![tactic(auto, unfolding(models::specs::Meaning::meaning))]

ghost use Rattle.std.specs.Prelude.{◌≡◌};
ghost use Rattle.integers.specs.Terms.{value};
ghost use Rattle.models.specs.Builtin.{bool_clause, array_bool_and, array_bool_xor};
ghost use Rattle.models.specs.Model.{var, vars, past};
ghost use Rattle.models.specs.Meaning.{meaning};

use arguments::instance::Instance;
use arguments::past_at;

// Whether bool_clause is true.
#[tactic(auto, unfolding(models::specs::Meaning::meaning, models::specs::Meaning::on, models::specs::Meaning::off))]
pub fn bool_clause(instance: &Instance) -> bool
    ensures { let ws = instance.now.args.now in result ≡ meaning (value instance.now.values.now) (bool_clause (vars ws 0) (vars ws (past ws 0))) }
{
    instance.any_equal(0, 1) || instance.any_equal(past_at(instance.args, 0), 0)
}

// Whether array_bool_and is true.
pub fn array_bool_and(instance: &Instance) -> bool
    ensures { let ws = instance.now.args.now in result ≡ meaning (value instance.now.values.now) (array_bool_and (vars ws 0) (var ws (past ws 0))) }
{
    instance.is_on(past_at(instance.args, 0)) == instance.all_on(0)
}

// Whether array_bool_xor is true: an odd number are 1.
#[tactic(auto, unfolding(models::specs::Meaning::meaning, models::specs::Meaning::on, models::specs::Meaning::odd))]
pub fn array_bool_xor(instance: &Instance) -> bool
    ensures { result ≡ meaning (value instance.now.values.now) (array_bool_xor (vars instance.now.args.now 0)) }
{
    instance.how_many(0, 1) % 2 == 1
}
