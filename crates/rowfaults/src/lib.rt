// The faults of a row system's words: whether a word is what is due there.
// It may depend on how many variables stand before the word, or on a product's factors. The faults that a model's words have too are in words::check.
#![tactic(auto, unfolding(rowsystems::specs::Reading::fault_lower, rowsystems::specs::Reading::fault_item, rowsystems::specs::Reading::fault_source, rowsystems::specs::Reading::fault_variable, rowsystems::specs::Reading::not_above, rowsystems::specs::Reading::fault_result, crate::specs::Head::fault_at_head))]

ghost use Rattle.std.specs.Prelude.{◌≡◌, ◌≢◌, true, eqb, ltb, leb};
ghost use Rattle.integers.specs.Choice.{◌if◌else◌};
ghost use Rattle.words.specs.Fault as fault;
ghost use Rattle.words.specs.Faults.{fault_number, number_of};
ghost use Rattle.words.specs.Limit as Limit;
ghost use Rattle.words.specs.Word.{payload};
ghost use Rattle.variables.specs.Start.{starts};
ghost use Rattle.rowsystems.specs.Reading.{fault_lower, fault_item, fault_source, fault_variable, not_above, fault_result};
ghost use Rattle.rowfaults.specs.Head.{fault_at_head};

use words::fault::Fault;
use words::kind::Kind;
use words::limit;
use words::word::Word;

// Of a lower bound, after n variables.
// The tests of a payload and of the number of variables stand in each check, here and below, as in modelitems::faults: a function of a line each would be no plainer.
fn check_lower(n: usize, w: Word) -> Result<(), Fault>
    ensures { number_of result ≡ fault_lower n w }
{
    if w.is_lowest() {
        return Err(Fault::LowestNumber);
    }
    if limit::IN_ALL <= n {
        return Err(Fault::TooManyInAll);
    }
    Ok(())
}

// Of a word where an auxiliary, a row, a product or the end may stand, after n variables.
fn check_item(n: usize, w: Word) -> Result<(), Fault>
    ensures { number_of result ≡ fault_item n w }
{
    if w.is(Kind::AuxiliaryLower) {
        return check_lower(n, w);
    }
    if w.is(Kind::AtMost) || w.is(Kind::Equal) {
        return check_row(w);
    }
    if !w.is(Kind::Product) && !w.is(Kind::RowsEnd) {
        return Err(Fault::WrongKind);
    }
    if 0 < w.payload() {
        return Err(Fault::PayloadAboveZero);
    }
    Ok(())
}

// Of a word where a source variable may stand too.
fn check_source(n: usize, w: Word) -> Result<(), Fault>
    ensures { number_of result ≡ fault_source n w }
{
    if w.is(Kind::Lower) {
        return check_lower(n, w);
    }
    if !w.is(Kind::Boolean) {
        return check_item(n, w);
    }
    check_boolean(n, w)
}

// Of a Boolean variable, whose kind is known, after n variables.
fn check_boolean(n: usize, w: Word) -> Result<(), Fault>
    ensures { number_of result ≡ (fault.payload_above_zero if ltb 0 (payload w) else fault.too_many_in_all if leb Limit.in_all n else fault.none) }
{
    if 0 < w.payload() {
        return Err(Fault::PayloadAboveZero);
    }
    if limit::IN_ALL <= n {
        return Err(Fault::TooManyInAll);
    }
    Ok(())
}

// Of the word that starts an item. A flag, here and in check_start, says whether source variables may stand there too: an enum of two cases is no plainer, as the definitions take a Boolean.
pub fn check_head(sources: bool, n: usize, w: Word) -> Result<(), Fault>
    ensures { number_of result ≡ fault_at_head sources n w }
{
    if sources {
        return check_source(n, w);
    }
    check_item(n, w)
}

// Of a word that starts a variable. With `check_head` in its place judge-rows takes 2 to 14 in 100 longer.
#[tactic(auto, unfolding(variables::specs::Start::starts, words::specs::Variables::starts_pair, rowsystems::specs::Reading::fault_item, rowsystems::specs::Reading::fault_source, crate::specs::Head::fault_at_head))]
pub fn check_start(sources: bool, n: usize, w: Word) -> Result<(), Fault>
    requires { starts w ≡ true }
    ensures { number_of result ≡ fault_at_head sources n w }
{
    if w.is(Kind::AuxiliaryLower) {
        return check_lower(n, w);
    }
    if !sources {
        return Err(Fault::WrongKind);
    }
    if w.is(Kind::Lower) {
        return check_lower(n, w);
    }
    check_boolean(n, w)
}

// Of a word that starts a row.
pub fn check_row(w: Word) -> Result<(), Fault>
    ensures { number_of result ≡ (fault.length_outside if ltb Limit.terms (payload w) else fault.none) }
{
    if limit::TERMS < w.payload() {
        return Err(Fault::LengthOutside);
    }
    Ok(())
}

// Whether a word is one of n variables.
pub fn is_variable(n: usize, w: Word) -> bool
    ensures { result ≡ eqb (fault_variable n w) fault.none }
{
    w.is(Kind::Variable) && w.payload() < n
}

// The fault of a word that is not one of them, worked out only where there is one.
#[cold]
pub fn variable_fault(n: usize, w: Word) -> Fault
    requires { fault_variable n w ≢ fault.none }
    ensures { fault_number result ≡ fault_variable n w }
{
    if !w.is(Kind::Variable) {
        return Fault::WrongKind;
    }
    Fault::NotDeclared
}

// Of a variable, after n variables. `modelitems::check_variable` compares types and no number: one of both would take the test as a closure and be no plainer.
pub fn check_variable(n: usize, w: Word) -> Result<(), Fault>
    ensures { number_of result ≡ fault_variable n w }
{
    if is_variable(n, w) {
        return Ok(());
    }
    Err(variable_fault(n, w))
}

// Whether a product's factor words f and g are variables and its result word r is not above both.
fn not_above(r: Word, f: Word, g: Word) -> bool
    ensures { result ≡ not_above r f g }
{
    let r = r.payload();
    f.is(Kind::Variable) && g.is(Kind::Variable) && (r <= f.payload() || r <= g.payload())
}

// Of a product's result, after n variables and before its two factors.
pub fn check_result(n: usize, w: Word, f: Word, g: Word) -> Result<(), Fault>
    ensures { number_of result ≡ fault_result n w f g }
{
    check_variable(n, w)?;
    if not_above(w, f, g) {
        return Err(Fault::ResultNotAbove);
    }
    Ok(())
}
