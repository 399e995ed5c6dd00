// The calls, by what they are on, and the numbers that a case gives them.
ghost use Rattle.std.specs.Prelude.{◌≡◌, IfOk};
ghost use Rattle.suite.specs.CallNumber.{call_number};

// A call on a model.
#[derive(Clone, Copy, Debug, PartialEq, Eq)]
pub enum ModelCall {
    Check,
    Translate,
    Judge,
    Fill,
    Reason,
    Solutions,
}

// A call on a row system.
#[derive(Clone, Copy, Debug, PartialEq, Eq)]
pub enum RowsCall {
    Judge,
    Sheet,
    Bits,
}

// A call on a row system and bits of its form: their values, their energy, the bits of values, the form of a best solution.
#[derive(Clone, Copy, Debug, PartialEq, Eq)]
pub enum BitsCall {
    Values,
    Energy,
    OfValues,
    Best,
}

// A call on a pair, for a candidate.
#[derive(Clone, Copy, Debug, PartialEq, Eq)]
pub enum PairCall {
    Check,
    Translate,
    Judge,
    Fill,
}

#[derive(Clone, Copy, Debug, PartialEq, Eq)]
pub enum Call {
    // no call: the function of main that writes further than it says
    TooFar,
    Model(ModelCall),
    Rows(RowsCall),
    Bits(BitsCall),
    Text,
    Pair(PairCall),
}

// A number that no call has.
#[derive(Clone, Copy, Debug, PartialEq, Eq)]
pub struct UnknownCall(pub u32);

impl TryFrom<u32> for Call {
    type Error = UnknownCall;

    fn try_from(number: u32) -> Result<Call, UnknownCall>
        ensures number { IfOk result (λ call. call_number call ≡ number) }
    {
        match number {
            0 => Ok(Call::TooFar),
            1 => Ok(Call::Model(ModelCall::Check)),
            2 => Ok(Call::Model(ModelCall::Translate)),
            3 => Ok(Call::Model(ModelCall::Judge)),
            4 => Ok(Call::Rows(RowsCall::Judge)),
            5 => Ok(Call::Model(ModelCall::Fill)),
            6 => Ok(Call::Rows(RowsCall::Sheet)),
            7 => Ok(Call::Text),
            8 => Ok(Call::Model(ModelCall::Reason)),
            9 => Ok(Call::Model(ModelCall::Solutions)),
            10 => Ok(Call::Rows(RowsCall::Bits)),
            11 => Ok(Call::Pair(PairCall::Check)),
            12 => Ok(Call::Pair(PairCall::Translate)),
            13 => Ok(Call::Pair(PairCall::Judge)),
            14 => Ok(Call::Pair(PairCall::Fill)),
            15 => Ok(Call::Bits(BitsCall::Values)),
            16 => Ok(Call::Bits(BitsCall::Energy)),
            17 => Ok(Call::Bits(BitsCall::OfValues)),
            18 => Ok(Call::Bits(BitsCall::Best)),
            _ => Err(UnknownCall(number)),
        }
    }
}
