// The faults, as documents 01 and 02 number them, and where one is.
ghost use Rattle.std.specs.Prelude.{◌≡◌};
ghost use Rattle.words.specs.Faults.{fault_number};

// What a call refuses its input for.
#[derive(Clone, Copy, Debug, PartialEq, Eq)]
pub enum Fault {
    TooManyWords = 1,
    WordsEnd = 2,
    WrongKind = 3,
    UpperBelowLower = 4,
    PayloadAboveZero = 5,
    TooManyVariables = 6,
    TooManyConstraints = 7,
    UnknownCode = 8,
    LengthOutside = 9,
    NotDeclared = 10,
    WordAfterEnd = 11,
    SetTooWide = 12,
    NumberOutside = 13,
    TooManyInAll = 14,
    WrongValueCount = 15,
    OutputTooShort = 16,
    ResultNotAbove = 17,
    LowestNumber = 18,
    BreaksGrammar = 19,
    WrongName = 20,
    OutsideRange = 21,
    TooManyLists = 22,
    TooManyBits = 23,
    FormTooLarge = 24,
    NotABit = 25,
    NoSuchVariable = 26,
}

impl Fault {
    // Its number.
    pub fn number(self) -> u32
        ensures { result ≡ fault_number self }
    {
        self as u32
    }
}

// A fault and its place.
#[derive(Clone, Copy, Debug, PartialEq, Eq)]
pub struct Refusal {
    pub fault: Fault,
    pub place: usize,
}
