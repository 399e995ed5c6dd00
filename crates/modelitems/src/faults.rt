// Whether a word may stand where it does, or its fault. Where two hold, the lower number comes first, and 18 directly after 3.
#![tactic(auto, unfolding(models::specs::Reading::fault_head, models::specs::Reading::fault_variable, models::specs::Reading::fault_start_in, models::specs::Reading::fault_count_in, crate::specs::Onward::is_number))]

ghost use Rattle.std.specs.Prelude.{◌≡◌, ltb, leb, length, get_or, map};
ghost use Rattle.integers.specs.Choice.{◌if◌else◌};
ghost use Rattle.integers.specs.Lists.{all, list_of};
ghost use Rattle.words.specs.Word.{payload, too_low, word_at};
ghost use Rattle.words.specs.Fault as Numbered;
ghost use Rattle.words.specs.Faults.{number_of};
ghost use Rattle.words.specs.Limit as Limit;
ghost use Rattle.models.specs.Shapes.{shape_number};
ghost use Rattle.models.specs.Reading.{fault_head, fault_variable};
ghost use Rattle.models.specs.InRange.{fault_start, fault_count};
ghost use Rattle.modelitems.specs.Onward.{is_number};

use crate::shapes::LAST_CODE;
use models::shape::Shape;
use words::check::is_number;
use words::fault::Fault;
use words::kind::Kind;
use words::limit;
use words::word::Word;

// A payload that is to be 0.
fn check_payload(w: Word) -> Result<(), Fault>
    ensures { number_of result ≡ (Numbered.payload_above_zero if ltb 0 (payload w) else Numbered.none) }
{
    if 0 < w.payload() {
        return Err(Fault::PayloadAboveZero);
    }
    Ok(())
}

// A signed payload.
fn check_signed(w: Word) -> Result<(), Fault>
    ensures { number_of result ≡ (Numbered.lowest_number if too_low Limit.range w else Numbered.none) }
{
    if w.is_lowest() {
        return Err(Fault::LowestNumber);
    }
    Ok(())
}

// One more variable after v variables.
fn check_room(v: usize) -> Result<(), Fault>
    ensures { number_of result ≡ (Numbered.too_many_variables if leb Limit.variables v else Numbered.none) }
{
    if limit::VARIABLES <= v {
        return Err(Fault::TooManyVariables);
    }
    Ok(())
}

// A word where a constraint or the end may stand, after c constraints.
pub fn check_head(c: usize, w: Word) -> Result<(), Fault>
    ensures { number_of result ≡ fault_head c w }
{
    if w.is(Kind::Constraint) {
        if limit::CONSTRAINTS <= c {
            return Err(Fault::TooManyConstraints);
        }
        // the definition compares with 0 and the last code: Code::try_from says it by 39 cases and is no plainer
        let code = w.payload();
        if code == 0 || LAST_CODE < code {
            return Err(Fault::UnknownCode);
        }
        return Ok(());
    }
    if w.is(Kind::ModelEnd) {
        return check_payload(w);
    }
    Err(Fault::WrongKind)
}

// A word where a variable may stand too, after v variables.
pub fn check_start(v: usize, c: usize, w: Word) -> Result<(), Fault>
    ensures { number_of result ≡ fault_start v c w }
{
    if w.is(Kind::Lower) {
        check_signed(w)?;
        return check_room(v);
    }
    if w.is(Kind::Boolean) {
        check_payload(w)?;
        return check_room(v);
    }
    check_head(c, w)
}

// Whether all words are numbers: all of them are looked at, so that several are at a time.
pub fn are_numbers(ws: &[u32]) -> bool
    ensures { result ≡ all is_number (list_of (word_at ws.now) (length ws.now)) }
{
    let mut so_far = true;
    for &w in ws {
        so_far &= is_number(w.into());
    }
    so_far
}

// A list's length or an exponent, which may be so much at most.
pub fn check_count(most: usize, w: Word) -> Result<(), Fault>
    ensures { number_of result ≡ fault_count most w }
{
    if !w.is(Kind::Number) {
        return Err(Fault::WrongKind);
    }
    check_signed(w)?;
    if most < w.payload() {
        return Err(Fault::LengthOutside);
    }
    Ok(())
}

// A word that is to name a variable of a type; the types are those of the variables declared so far.
pub fn check_variable(types: &[Shape], wanted: Shape, w: Word) -> Result<(), Fault>
    ensures { number_of result ≡ fault_variable (get_or (map shape_number types.now) (payload w) 0) (shape_number wanted) w }
{
    if !w.is(Kind::Variable) {
        return Err(Fault::WrongKind);
    }
    let x = w.payload();
    if types.len() <= x || types[x] != wanted {
        return Err(Fault::NotDeclared);
    }
    Ok(())
}
