// The codes of the builtins, as document 01 numbers them.
ghost use Rattle.std.specs.Prelude.{◌≡◌};
ghost use Rattle.models.specs.Codes.{code_number, Decodes};

// The builtins.
#[derive(Clone, Copy, Debug, PartialEq, Eq)]
pub enum Code {
    IntEq = 1,
    IntLe = 2,
    IntLt = 3,
    IntNe = 4,
    IntLeReif = 5,
    IntPlus = 6,
    IntTimes = 7,
    IntAbs = 8,
    IntMax = 9,
    IntLinEq = 10,
    IntLinLe = 11,
    IntLinNe = 12,
    IntLinEqReif = 13,
    IntEqReif = 14,
    IntLinLeReif = 15,
    Bool2int = 16,
    BoolNot = 17,
    BoolAnd = 18,
    BoolOr = 19,
    BoolXor = 20,
    BoolClause = 21,
    ArrayBoolAnd = 22,
    ArrayBoolXor = 23,
    ArrayIntElement = 24,
    ArrayVarIntElement = 25,
    ArrayIntMaximum = 26,
    SetIn = 27,
    SetInReif = 28,
    IntMin = 29,
    IntLtReif = 30,
    IntNeReif = 31,
    IntLinNeReif = 32,
    ArrayIntMinimum = 33,
    BoolEqReif = 34,
    BoolLeReif = 35,
    BoolLtReif = 36,
    IntDiv = 37,
    IntMod = 38,
    IntPow = 39,
}

impl Code {
    // Its number.
    pub fn number(self) -> usize
        ensures { result ≡ code_number self }
    {
        self as usize
    }
}

// A number that no builtin has.
#[derive(Clone, Copy, Debug, PartialEq, Eq)]
pub struct UnknownCode(pub usize);

impl TryFrom<usize> for Code {
    type Error = UnknownCode;

    ghost try_from_gives = { Decodes };

    fn try_from(number: usize) -> Result<Code, UnknownCode> {
        match number {
            1 => Ok(Code::IntEq),
            2 => Ok(Code::IntLe),
            3 => Ok(Code::IntLt),
            4 => Ok(Code::IntNe),
            5 => Ok(Code::IntLeReif),
            6 => Ok(Code::IntPlus),
            7 => Ok(Code::IntTimes),
            8 => Ok(Code::IntAbs),
            9 => Ok(Code::IntMax),
            10 => Ok(Code::IntLinEq),
            11 => Ok(Code::IntLinLe),
            12 => Ok(Code::IntLinNe),
            13 => Ok(Code::IntLinEqReif),
            14 => Ok(Code::IntEqReif),
            15 => Ok(Code::IntLinLeReif),
            16 => Ok(Code::Bool2int),
            17 => Ok(Code::BoolNot),
            18 => Ok(Code::BoolAnd),
            19 => Ok(Code::BoolOr),
            20 => Ok(Code::BoolXor),
            21 => Ok(Code::BoolClause),
            22 => Ok(Code::ArrayBoolAnd),
            23 => Ok(Code::ArrayBoolXor),
            24 => Ok(Code::ArrayIntElement),
            25 => Ok(Code::ArrayVarIntElement),
            26 => Ok(Code::ArrayIntMaximum),
            27 => Ok(Code::SetIn),
            28 => Ok(Code::SetInReif),
            29 => Ok(Code::IntMin),
            30 => Ok(Code::IntLtReif),
            31 => Ok(Code::IntNeReif),
            32 => Ok(Code::IntLinNeReif),
            33 => Ok(Code::ArrayIntMinimum),
            34 => Ok(Code::BoolEqReif),
            35 => Ok(Code::BoolLeReif),
            36 => Ok(Code::BoolLtReif),
            37 => Ok(Code::IntDiv),
            38 => Ok(Code::IntMod),
            39 => Ok(Code::IntPow),
            _ => Err(UnknownCode(number)),
        }
    }
}
