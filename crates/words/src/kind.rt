// The kinds of words, as document 01 numbers them.
ghost use Rattle.std.specs.Prelude.{◌≡◌};
ghost use Rattle.words.specs.Kinds.{kind_number, Decodes};

// What a word is.
#[derive(Clone, Copy, Debug, PartialEq, Eq)]
pub enum Kind {
    // lower and upper bound of an integer variable; a Boolean variable
    Lower = 1,
    Upper = 2,
    Boolean = 3,
    // a constraint, a variable argument, a number argument, the end of a model
    Constraint = 4,
    Variable = 5,
    Number = 6,
    ModelEnd = 7,
    // lower and upper bound of an auxiliary; a row "sum ≤ 0", a row "sum = 0", a product, the end of a row system
    AuxiliaryLower = 8,
    AuxiliaryUpper = 9,
    AtMost = 10,
    Equal = 11,
    Product = 12,
    RowsEnd = 15,
}

impl Kind {
    // Its number. A method, as Fault::number, Code::number, Shape::number and Word::bits are: `From` for u32 would be the same cast under another name, and no plainer.
    pub fn number(self) -> u32
        ensures { result ≡ kind_number self }
    {
        self as u32
    }
}

// A number that no kind has.
#[derive(Clone, Copy, Debug, PartialEq, Eq)]
pub struct UnknownKind(pub u32);

impl TryFrom<u32> for Kind {
    type Error = UnknownKind;

    ghost try_from_gives = { Decodes };

    fn try_from(number: u32) -> Result<Kind, UnknownKind> {
        match number {
            1 => Ok(Kind::Lower),
            2 => Ok(Kind::Upper),
            3 => Ok(Kind::Boolean),
            4 => Ok(Kind::Constraint),
            5 => Ok(Kind::Variable),
            6 => Ok(Kind::Number),
            7 => Ok(Kind::ModelEnd),
            8 => Ok(Kind::AuxiliaryLower),
            9 => Ok(Kind::AuxiliaryUpper),
            10 => Ok(Kind::AtMost),
            11 => Ok(Kind::Equal),
            12 => Ok(Kind::Product),
            15 => Ok(Kind::RowsEnd),
            _ => Err(UnknownKind(number)),
        }
    }
}
