// The sorts of a builtin's arguments.
ghost use Rattle.std.specs.Prelude.{◌≡◌, map};
ghost use Rattle.flatzinc.specs.Seen.{row};
ghost use Rattle.flatrewriting.specs.Sorts.{sort};

use models::code::Code;

// A variable of a type, a number, the exponent of a power, a list or a set, parallel lists of numbers and variables.
#[derive(Clone, Copy, Debug, PartialEq, Eq)]
pub enum Sort {
    Integer,
    Boolean,
    Number,
    Exponent,
    Numbers,
    Set,
    Integers,
    Booleans,
    Parallel,
}

use Sort::{Boolean, Booleans, Exponent, Integer, Integers, Number, Numbers, Parallel, Set};

// The sorts of a code's arguments, in their order.
pub fn sorts_of(code: Code) -> &'static [Sort]
    ensures { map sort result.now ≡ (row code).sorts }
{
    match code {
        Code::IntEq | Code::IntLe | Code::IntLt | Code::IntNe | Code::IntAbs => &[Integer, Integer],
        Code::IntPlus
        | Code::IntTimes
        | Code::IntMax
        | Code::IntMin
        | Code::IntDiv
        | Code::IntMod => &[Integer, Integer, Integer],
        Code::IntLeReif | Code::IntEqReif | Code::IntLtReif | Code::IntNeReif => {
            &[Integer, Integer, Boolean]
        }
        Code::IntLinEq | Code::IntLinLe | Code::IntLinNe => &[Parallel, Number],
        Code::IntLinEqReif | Code::IntLinLeReif | Code::IntLinNeReif => {
            &[Parallel, Number, Boolean]
        }
        Code::Bool2int => &[Boolean, Integer],
        Code::BoolNot => &[Boolean, Boolean],
        Code::BoolAnd
        | Code::BoolOr
        | Code::BoolXor
        | Code::BoolEqReif
        | Code::BoolLeReif
        | Code::BoolLtReif => &[Boolean, Boolean, Boolean],
        Code::BoolClause => &[Booleans, Booleans],
        Code::ArrayBoolAnd => &[Booleans, Boolean],
        Code::ArrayBoolXor => &[Booleans],
        Code::ArrayIntElement => &[Integer, Numbers, Integer],
        Code::ArrayVarIntElement => &[Integer, Integers, Integer],
        Code::ArrayIntMaximum | Code::ArrayIntMinimum => &[Integer, Integers],
        Code::SetIn => &[Integer, Set],
        Code::SetInReif => &[Integer, Set, Boolean],
        Code::IntPow => &[Integer, Exponent, Integer],
    }
}
