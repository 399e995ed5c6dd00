// What is due in the places of a builtin's arguments.
ghost use Rattle.std.specs.Prelude.{◌≡◌, map};
ghost use Rattle.flatzinc.specs.Seen.{row};
ghost use Rattle.flatnames.specs.Due.{all_dues};
ghost use Rattle.flatnames.specs.SeenDue.{due_of};

use models::code::Code;

// An atom of a type, a number, the exponent of a power, a set; lists of numbers and of atoms of a type; the same lists where they cannot be cut.
#[derive(Clone, Copy, Debug, PartialEq, Eq)]
pub enum Due {
    Integer,
    Boolean,
    Number,
    Exponent,
    Set,
    Numbers,
    Integers,
    Booleans,
    ShortNumbers,
    ShortIntegers,
    ShortBooleans,
}

const I: Due = Due::Integer;

const B: Due = Due::Boolean;

const N: Due = Due::Number;

// What is due for a builtin, place by place.
#[tactic(auto, unfolding(crate::specs::Due::all_dues, crate::specs::Due::dues))]
pub fn dues(code: Code) -> &'static [Due]
    ensures { map due_of result.now ≡ all_dues (row code).sorts }
{
    match code {
        Code::IntEq | Code::IntLe | Code::IntLt | Code::IntNe | Code::IntAbs => &[I, I],
        Code::IntLeReif | Code::IntEqReif | Code::IntLtReif | Code::IntNeReif => &[I, I, B],
        Code::IntPlus | Code::IntTimes | Code::IntMax | Code::IntMin => &[I, I, I],
        Code::IntDiv | Code::IntMod => &[I, I, I],
        Code::IntLinEq | Code::IntLinLe | Code::IntLinNe => &[Due::Numbers, Due::Integers, N],
        Code::IntLinEqReif | Code::IntLinLeReif | Code::IntLinNeReif => {
            &[Due::Numbers, Due::Integers, N, B]
        }
        Code::Bool2int => &[B, I],
        Code::BoolNot => &[B, B],
        Code::BoolAnd | Code::BoolOr | Code::BoolXor => &[B, B, B],
        Code::BoolEqReif | Code::BoolLeReif | Code::BoolLtReif => &[B, B, B],
        Code::BoolClause => &[Due::Booleans, Due::Booleans],
        Code::ArrayBoolAnd => &[Due::Booleans, B],
        Code::ArrayBoolXor => &[Due::ShortBooleans],
        Code::ArrayIntElement => &[I, Due::ShortNumbers, I],
        Code::ArrayVarIntElement => &[I, Due::ShortIntegers, I],
        Code::ArrayIntMaximum | Code::ArrayIntMinimum => &[I, Due::Integers],
        Code::SetIn => &[I, Due::Set],
        Code::SetInReif => &[I, Due::Set, B],
        Code::IntPow => &[I, Due::Exponent, I],
    }
}
