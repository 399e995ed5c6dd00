// The block of a constraint, by its code.
#![tactic(auto)]

ghost use Rattle.laying.specs.Part.{block_parts};
ghost use Rattle.laying.specs.Appends.{GrowsBy, nothing};
ghost use Rattle.laying.specs.Sizes.{block_size};
ghost use Rattle.laying.specs.Writes.{WritesFitting};
ghost use Rattle.blocks.specs.Coded.{block_by, Layable, Lays};

use arguments::{exponent_at, var_at};
use choiceblocks::array_int_extreme;
use choices::choice;
use divisionblocks::{int_div, int_mod};
use encodings::context::Context;
use fixedblocks::rows::{three_terms, two_terms};
use fixedblocks::{boolean, compare, number};
use integers::Bounds;
use laying::{Laid, Writer, none_yet};
use linearblocks::{clause, linear};
use models::code::Code;
use models::constraint::Constraint;
use powerblocks::int_pow;
use words::kind::Kind;

mod choices;

// The block of a constraint; `sum` is L and U where its rule has these. An arm for each code.
// The rules take bounds and `first` and no `Context`: that has the record and the uses, which no rule of its own asks for.
fn write_block(writer: &mut Writer, constraint: &Constraint, sum: Bounds, context: &Context)
    requires { Layable context.now constraint.now sum }
    ensures { WritesFitting writer.old writer.new (block_parts context.now.first (block_by context.now constraint.now)) }
{
    let args = constraint.args;
    let domains = context.domains;
    let first = context.first;
    let a = var_at(args, 0);
    let b = var_at(args, 1);
    let c = var_at(args, 2);
    match constraint.code {
        Code::IntEq => compare::int_eq(writer, a, b),
        Code::IntLe => two_terms(writer, Kind::AtMost, a, -1, b, 0),
        Code::IntLt => two_terms(writer, Kind::AtMost, a, -1, b, 1),
        Code::IntNe => compare::int_ne(writer, a, b, domains, first),
        Code::IntLeReif => compare::order_reif(writer, a, b, c, 0, 1, domains),
        Code::IntPlus => three_terms(writer, Kind::Equal, a, 1, b, -1, c, 0),
        Code::IntTimes => number::int_times(writer, a, b, c, domains, first),
        Code::IntAbs => number::int_abs(writer, a, b, number::bounds_of(domains, a), first),
        Code::IntMax => number::touching(writer, a, c, b, c, domains, first),
        Code::IntLinEq => linear::int_lin_eq(writer, args),
        Code::IntLinLe => linear::int_lin_le(writer, args),
        Code::IntLinNe => linear::int_lin_ne(writer, args, sum, first),
        Code::IntLinEqReif => linear::zero_reif(writer, args, sum, first, true),
        Code::IntEqReif => linear::two_reif(writer, args, sum, first, true),
        Code::IntLinLeReif => linear::int_lin_le_reif(writer, args, sum, first),
        Code::Bool2int => compare::int_eq(writer, a, b),
        Code::BoolNot => two_terms(writer, Kind::Equal, a, 1, b, -1),
        Code::BoolAnd => boolean::bool_and(writer, a, b, c),
        Code::BoolOr => boolean::bool_or(writer, a, b, c),
        Code::BoolXor => boolean::bool_xor(writer, a, b, c, first),
        Code::BoolClause => clause::bool_clause(writer, args),
        Code::ArrayBoolAnd => clause::array_bool_and(writer, args),
        Code::ArrayBoolXor => clause::array_bool_xor(writer, args, first),
        Code::ArrayIntElement | Code::ArrayVarIntElement | Code::SetIn | Code::SetInReif => {
            choice(writer, constraint, context)
        }
        Code::ArrayIntMaximum => array_int_extreme(writer, args, domains, first, true),
        Code::IntMin => number::touching(writer, c, a, c, b, domains, first),
        Code::IntLtReif => compare::order_reif(writer, a, b, c, 1, 0, domains),
        Code::IntNeReif => linear::two_reif(writer, args, sum, first, false),
        Code::IntLinNeReif => linear::zero_reif(writer, args, sum, first, false),
        Code::ArrayIntMinimum => array_int_extreme(writer, args, domains, first, false),
        Code::BoolEqReif => boolean::bool_eq_reif(writer, a, b, c, first),
        Code::BoolLeReif => boolean::bool_le_reif(writer, a, b, c),
        Code::BoolLtReif => boolean::bool_lt_reif(writer, a, b, c),
        Code::IntDiv => int_div(writer, a, b, c, domains, first),
        Code::IntMod => int_mod(writer, a, b, c, domains, first),
        Code::IntPow => int_pow(writer, a, exponent_at(args, 1), c, domains, first),
    }
}

// Lays the block of a constraint to the front of the output; `sum` is L and U where its rule has these.
// `sum` is no Option: a rule without L and U doesn't read it, so that a case for none would be no plainer.
// Constraint, sum and context come as three: check finds only in `cost_of` that fault 12 is not that of the constraint, so a struct with that fact would be made in each caller's line before the call, and be no plainer.
pub fn block(out: &mut [u32], constraint: &Constraint, sum: Bounds, context: &Context) -> Laid
    requires { Layable context.now constraint.now sum }
    ensures parts { Lays (block_by context.now constraint.now) context.now.first nothing result out.old out.new }
    ensures size { GrowsBy block_size nothing result }
{
    let mut writer = Writer {
        out,
        laid: none_yet(),
    };
    write_block(&mut writer, constraint, sum, context);
    writer.laid
}
