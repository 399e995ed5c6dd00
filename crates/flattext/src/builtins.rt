// The names of the builtins.
ghost use Rattle.std.specs.Prelude.{◌≡◌};
ghost use Rattle.flattext.specs.Builtin.{builtin_name};

use models::code::Code;

// The name of a builtin.
pub fn builtin_name(code: Code) -> &'static [u8]
    ensures { result.now ≡ builtin_name code }
{
    match code {
        Code::IntEq => b"int_eq",
        Code::IntLe => b"int_le",
        Code::IntLt => b"int_lt",
        Code::IntNe => b"int_ne",
        Code::IntLeReif => b"int_le_reif",
        Code::IntPlus => b"int_plus",
        Code::IntTimes => b"int_times",
        Code::IntAbs => b"int_abs",
        Code::IntMax => b"int_max",
        Code::IntLinEq => b"int_lin_eq",
        Code::IntLinLe => b"int_lin_le",
        Code::IntLinNe => b"int_lin_ne",
        Code::IntLinEqReif => b"int_lin_eq_reif",
        Code::IntEqReif => b"int_eq_reif",
        Code::IntLinLeReif => b"int_lin_le_reif",
        Code::Bool2int => b"bool2int",
        Code::BoolNot => b"bool_not",
        Code::BoolAnd => b"bool_and",
        Code::BoolOr => b"bool_or",
        Code::BoolXor => b"bool_xor",
        Code::BoolClause => b"bool_clause",
        Code::ArrayBoolAnd => b"array_bool_and",
        Code::ArrayBoolXor => b"array_bool_xor",
        Code::ArrayIntElement => b"array_int_element",
        Code::ArrayVarIntElement => b"array_var_int_element",
        Code::ArrayIntMaximum => b"array_int_maximum",
        Code::SetIn => b"set_in",
        Code::SetInReif => b"set_in_reif",
        Code::IntMin => b"int_min",
        Code::IntLtReif => b"int_lt_reif",
        Code::IntNeReif => b"int_ne_reif",
        Code::IntLinNeReif => b"int_lin_ne_reif",
        Code::ArrayIntMinimum => b"array_int_minimum",
        Code::BoolEqReif => b"bool_eq_reif",
        Code::BoolLeReif => b"bool_le_reif",
        Code::BoolLtReif => b"bool_lt_reif",
        Code::IntDiv => b"int_div",
        Code::IntMod => b"int_mod",
        Code::IntPow => b"int_pow",
    }
}
