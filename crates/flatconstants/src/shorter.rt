// Builtins that say the same with fewer auxiliaries.
ghost use Rattle.std.specs.Prelude.{◌≡◌, ◌&&◌, [], ◌∷◌, map, Some, None, IfOk};
ghost use Rattle.integers.specs.Choice.{◌if◌else◌};
ghost use Rattle.integers.specs.Number.{◌≟◌, +0, -1};
ghost use Rattle.flatrewriting.specs.Arguments.{atom, given};
ghost use Rattle.flatconstants.specs.Short.{short_code, pair_in, pair_at, constant_at, atom_at, short_by, short_third, short, IsShort};
ghost use Rattle.flatconstants.specs.Whole.{IsShorter};

use flatzinc::{Argument, Atom, Call, Product};
use integers::equal;
use models::code::Code;
use std::alloc::{AllocError, Global};

// A code where a test holds.
fn where_true(holds: bool, code: Code) -> Option<Code>
    ensures { result ≡ (Some code if holds else None) }
{
    if holds { Some(code) } else { None }
}

// One code for 0, another for -1.
fn by_constant(constant: i64, zero: Code, below: Code) -> Option<Code>
    ensures { result ≡ (Some zero if constant ≟ +0 else Some below if constant ≟ -1 else None) }
{
    if equal(constant, 0) {
        return Some(zero);
    }
    if equal(constant, -1) {
        return Some(below);
    }
    None
}

// The code of the shorter builtin, if there is one.
#[tactic(auto, unfolding(crate::specs::Short::short_code))]
fn short_code(code: Code, constant: i64) -> Option<Code>
    ensures { result ≡ short_code code constant }
{
    match code {
        Code::IntLinEq => where_true(equal(constant, 0), Code::IntEq),
        Code::IntLinNe => where_true(equal(constant, 0), Code::IntNe),
        Code::IntLinLe => by_constant(constant, Code::IntLe, Code::IntLt),
        Code::IntLinLeReif => by_constant(constant, Code::IntLeReif, Code::IntLtReif),
        _ => None,
    }
}

// Whether two coefficients are two numbers.
fn are(a: i64, b: i64, x: i64, y: i64) -> bool
    ensures { result ≡ ((a ≟ x) && (b ≟ y)) }
{
    equal(a, x) && equal(b, y)
}

// The atoms of a difference: that by 1, that by -1.
#[tactic(auto, unfolding(crate::specs::Short::pair_in))]
fn pair_of(first: Product, second: Product) -> Option<(Atom, Atom)>
    ensures { result ≡ pair_in (first ∷ second ∷ []) }
{
    if are(first.coefficient, second.coefficient, 1, -1) {
        return Some((first.atom, second.atom));
    }
    if are(first.coefficient, second.coefficient, -1, 1) {
        return Some((second.atom, first.atom));
    }
    None
}

// The atoms of a difference, of a sum.
#[tactic(auto, unfolding(crate::specs::Short::pair_in))]
fn pair_in(products: &[Product]) -> Option<(Atom, Atom)>
    ensures { result ≡ pair_in products.now }
{
    match products {
        [] => None,
        [_] => None,
        [first, second] => pair_of(*first, *second),
        [_, _, _, ..] => None,
    }
}

// The atoms of a difference, of an argument.
#[tactic(auto, unfolding(crate::specs::Short::pair_at))]
fn pair_at(argument: &Argument) -> Option<(Atom, Atom)>
    ensures { result ≡ pair_at (given argument.now) }
{
    match argument {
        Argument::Sum(products) => pair_in(products),
        Argument::One(_) => None,
        Argument::Number(_) => None,
        Argument::Numbers(_) => None,
        Argument::Many(_) => None,
    }
}

// The number that is an argument.
#[tactic(auto, unfolding(crate::specs::Short::constant_at))]
fn constant_at(argument: &Argument) -> Option<i64>
    ensures { result ≡ constant_at (given argument.now) }
{
    match argument {
        Argument::Number(number) => Some(*number),
        Argument::One(_) => None,
        Argument::Numbers(_) => None,
        Argument::Many(_) => None,
        Argument::Sum(_) => None,
    }
}

// The atom that is an argument.
#[tactic(auto, unfolding(crate::specs::Short::atom_at))]
fn atom_at(argument: &Argument) -> Option<Atom>
    ensures { result ≡ atom_at (given argument.now) }
{
    match argument {
        Argument::One(atom) => Some(*atom),
        Argument::Number(_) => None,
        Argument::Numbers(_) => None,
        Argument::Many(_) => None,
        Argument::Sum(_) => None,
    }
}

// The shorter call without a third argument.
fn short_two(
    alloc: Global,
    code: Code,
    first: &Argument,
    second: &Argument,
) -> Result<Option<Call>, AllocError>
    ensures { IfOk result (IsShort (short_by code (given first.now) (given second.now) [])) }
{
    let Some(constant) = constant_at(second) else {
        return Ok(None);
    };
    let Some(code) = short_code(code, constant) else {
        return Ok(None);
    };
    let Some((a, b)) = pair_at(first) else {
        return Ok(None);
    };
    let arguments = vec![in alloc; Argument::One(a), Argument::One(b)]?;
    Ok(Some(Call { code, arguments }))
}

// The shorter call with a third argument.
fn short_three(
    alloc: Global,
    code: Code,
    first: &Argument,
    second: &Argument,
    last: Atom,
) -> Result<Option<Call>, AllocError>
    ensures { IfOk result (IsShort (short_by code (given first.now) (given second.now) (atom last ∷ []))) }
{
    let Some(constant) = constant_at(second) else {
        return Ok(None);
    };
    let Some(code) = short_code(code, constant) else {
        return Ok(None);
    };
    let Some((a, b)) = pair_at(first) else {
        return Ok(None);
    };
    let arguments = vec![in alloc; Argument::One(a), Argument::One(b), Argument::One(last)]?;
    Ok(Some(Call { code, arguments }))
}

// The shorter call, with what may be its third argument.
fn short_third(
    alloc: Global,
    code: Code,
    first: &Argument,
    second: &Argument,
    third: &Argument,
) -> Result<Option<Call>, AllocError>
    ensures { IfOk result (IsShort (short_third code (given first.now) (given second.now) (given third.now))) }
{
    match atom_at(third) {
        None => Ok(None),
        Some(last) => short_three(alloc, code, first, second, last),
    }
}

// The shorter call, if there is one.
#[tactic(auto, unfolding(crate::specs::Short::short))]
fn short(alloc: Global, code: Code, arguments: &[Argument]) -> Result<Option<Call>, AllocError>
    ensures { IfOk result (IsShort (short code (map given arguments.now))) }
{
    match arguments {
        [] => Ok(None),
        [_] => Ok(None),
        [first, second] => short_two(alloc, code, first, second),
        [first, second, third] => short_third(alloc, code, first, second, third),
        [_, _, _, _, ..] => Ok(None),
    }
}

// The call of the shorter builtin.
pub(crate) fn shorter(alloc: Global, call: Call) -> Result<Call, AllocError>
    ensures { IfOk result (IsShorter call) }
{
    match short(alloc, call.code, &call.arguments)? {
        Some(shorter) => Ok(shorter),
        None => Ok(call),
    }
}
