// The faults in words.
ghost use Rattle.std.specs.Prelude.{◌≡◌};
ghost use Rattle.answers.specs.FaultText.{fault_text};

use words::fault::Fault;

// A fault in words, as docs/FORMAT.md has it.
pub fn fault_text(fault: Fault) -> &'static str
    ensures { result.now ≡ fault_text fault }
{
    match fault {
        Fault::TooManyWords => "more than 8,192 words in a model, or 262,144 in a row system",
        Fault::WordsEnd => "the words end too early",
        Fault::WrongKind => "the kind of the word does not belong there",
        Fault::UpperBelowLower => "the upper bound is below its lower one",
        Fault::PayloadAboveZero => "the payload of a Boolean, product or end word is above 0",
        Fault::TooManyVariables => "a 257th variable starts",
        Fault::TooManyConstraints => "a 257th constraint starts",
        Fault::UnknownCode => "the code is unknown",
        Fault::LengthOutside => {
            "a list length is outside 0 to 32, an exponent outside 0 to 27, or a number of terms above 66"
        }
        Fault::NotDeclared => "a variable number is not declared so far, or has the wrong type",
        Fault::WordAfterEnd => "a word follows the end word",
        Fault::SetTooWide => "a variable whose values are encoded as bits has more than 64 of them",
        Fault::NumberOutside => {
            "a coefficient, constant or auxiliary bound of the rows is outside the range"
        }
        Fault::TooManyInAll => "variables and auxiliaries pass 4,096",
        Fault::WrongValueCount => {
            "the number of values is not that of the variables, in rows with the auxiliaries"
        }
        Fault::OutputTooShort => "the lent list is too short",
        Fault::ResultNotAbove => "the number of a product's result is not above both factors'",
        Fault::LowestNumber => "a number is the lowest 28-bit number, which has no opposite",
        Fault::BreaksGrammar => "the text breaks the grammar",
        Fault::WrongName => "the name is unknown, or a variable is declared twice",
        Fault::OutsideRange => "a number is outside -134,217,727 to 134,217,727",
        Fault::TooManyLists => "more than 8 variables, or more than 65,536 value lists",
        Fault::TooManyBits => "more than 1,024 bits are needed",
        Fault::FormTooLarge => {
            "a number of a row over bits is beyond 16,384, or one of the form outside the range, or the energy is 2^62 or more"
        }
        Fault::NotABit => "a bit is neither 0 nor 1",
        Fault::NoSuchVariable => "there is no such variable, or no such direction",
    }
}
