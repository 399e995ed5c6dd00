// Tests of a word that stand in a model as in a row system, and the step over a word that was tested.
#![tactic(auto, unfolding(crate::specs::Check::fault_number_in, crate::specs::Check::step_over))]

ghost use Rattle.std.specs.Prelude.{◌≡◌, ◌≢◌, eqb, ◌≤◌};
ghost use Rattle.words.specs.Check.{fault_number_in, fault_upper_of, step_of, step_over};
ghost use Rattle.words.specs.Fault as Numbered;
ghost use Rattle.words.specs.Faults.{fault_number, number_of};
ghost use Rattle.words.specs.Kinds.{kind_number};
ghost use Rattle.words.specs.Limit as Limit;

use crate::fault::{Fault, Refusal};
use crate::kind::Kind;
use crate::word::Word;

// Whether a word is a number.
pub fn is_number(w: Word) -> bool
    ensures { result ≡ eqb (fault_number_in Limit.range w) Numbered.none }
{
    w.is(Kind::Number) && !w.is_lowest()
}

// The fault of a word that is not a number, worked out only where there is one.
#[cold]
pub fn number_fault(w: Word) -> Fault
    requires { fault_number_in Limit.range w ≢ Numbered.none }
    ensures { fault_number result ≡ fault_number_in Limit.range w }
{
    if !w.is(Kind::Number) {
        return Fault::WrongKind;
    }
    Fault::LowestNumber
}

// The fault of a word where a number is due.
pub fn check_number(w: Word) -> Result<(), Fault>
    ensures { number_of result ≡ fault_number_in Limit.range w }
{
    if is_number(w) {
        return Ok(());
    }
    Err(number_fault(w))
}

// The fault of an upper bound of a kind, after the word of its lower one.
pub fn check_upper(k: Kind, lower: Word, w: Word) -> Result<(), Fault>
    ensures { number_of result ≡ fault_upper_of (kind_number k) lower w }
{
    if !w.is(k) {
        return Err(Fault::WrongKind);
    }
    if w.is_lowest() {
        return Err(Fault::LowestNumber);
    }
    if w.signed() < lower.signed() {
        return Err(Fault::UpperBelowLower);
    }
    Ok(())
}

// The refusal of a word for a fault.
#[cold]
fn refused(fault: Fault, place: usize) -> Refusal
    ensures { result ≡ record { fault = fault; place = place } }
{
    Refusal { fault, place }
}

// The place after a word that was tested, or the word's fault.
pub fn over(at: usize, checked: Result<(), Fault>) -> Result<usize, Refusal>
    requires { at ≤ Limit.row_words }
    ensures { step_of result ≡ step_over (number_of checked) at }
{
    match checked {
        Ok(()) => Ok(at + 1),
        Err(fault) => Err(refused(fault, at)),
    }
}
