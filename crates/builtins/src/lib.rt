// Whether a builtin is true of values: by its code and the words of its arguments.
// A function for each builtin, whose clause is the builtin's own meaning. One function for several, by a closure or a flag, would take the operator and its meaning
// as two parameters that have to agree, and be no plainer.
#![tactic(auto, unfolding(models::specs::Meaning::meaning, models::specs::Model::builtin, models::specs::Model::builtins))]

ghost use Rattle.std.specs.Prelude.{◌≡◌};
ghost use Rattle.integers.specs.Terms.{value};
ghost use Rattle.words.specs.Small.{Small};
ghost use Rattle.models.specs.Codes.{code_number};
ghost use Rattle.models.specs.Meaning.{meaning};
ghost use Rattle.builtins.specs.Coded.{builtin_of};

mod boolean;
mod clause;
mod compare;
mod linear;
mod list;
mod number;
mod power;

use arguments::instance::Instance;
use arguments::near::NearInstance;
use models::code::Code;
use models::constraint::Constraint;

// Whether the builtin of a constraint is true of values near 0.
// The fact about the values is asked here and goes into a NearInstance, which is another one for each constraint; a type of the values alone would be no plainer.
pub fn holds(constraint: &Constraint, values: &[i32]) -> bool
    requires { Small values.now }
    ensures { result ≡ meaning (value values.now) (builtin_of (code_number constraint.now.code) constraint.now.args.now) }
{
    let instance = &Instance {
        args: constraint.args,
        values,
    };
    let near = &NearInstance {
        instance: *instance,
    };
    match constraint.code {
        Code::IntEq | Code::Bool2int => compare::int_eq(instance),
        Code::IntNe | Code::BoolNot => !compare::int_eq(instance),
        Code::IntLe => compare::int_le(instance),
        Code::IntLt => compare::int_lt(instance),
        Code::IntEqReif | Code::BoolEqReif => compare::int_eq_reif(instance),
        Code::IntLeReif | Code::BoolLeReif => compare::int_le_reif(instance),
        Code::IntLtReif | Code::BoolLtReif => compare::int_lt_reif(instance),
        Code::IntNeReif | Code::BoolXor => boolean::bool_xor(instance),
        Code::IntPlus => number::int_plus(near),
        Code::IntTimes => number::int_times(near),
        Code::IntAbs => number::int_abs(near),
        Code::IntMax => number::int_max(instance),
        Code::IntMin => number::int_min(instance),
        Code::IntDiv => number::int_div(near),
        Code::IntMod => number::int_mod(near),
        Code::IntPow => power::int_pow(near),
        Code::IntLinEq => linear::int_lin_eq(near),
        Code::IntLinLe => linear::int_lin_le(near),
        Code::IntLinNe => !linear::int_lin_eq(near),
        Code::IntLinEqReif => linear::int_lin_eq_reif(near),
        Code::IntLinLeReif => linear::int_lin_le_reif(near),
        Code::IntLinNeReif => linear::int_lin_ne_reif(near),
        Code::BoolAnd => boolean::bool_and(instance),
        Code::BoolOr => boolean::bool_or(instance),
        Code::BoolClause => clause::bool_clause(instance),
        Code::ArrayBoolAnd => clause::array_bool_and(instance),
        Code::ArrayBoolXor => clause::array_bool_xor(instance),
        Code::ArrayIntElement => list::array_int_element(instance),
        Code::ArrayVarIntElement => list::array_var_int_element(instance),
        Code::ArrayIntMaximum => list::array_int_maximum(instance),
        Code::ArrayIntMinimum => list::array_int_minimum(instance),
        Code::SetIn => list::set_in(instance),
        Code::SetInReif => list::set_in_reif(instance),
    }
}
