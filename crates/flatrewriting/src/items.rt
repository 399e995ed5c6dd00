// The calls of an item.
ghost use Rattle.std.specs.Prelude.{◌≡◌, [], ◌∷◌, map, IfOk};
ghost use Rattle.models.specs.declared.code.Code.TheVariants.{BoolClause};
ghost use Rattle.flatzinc.specs.Seen.{row, value, item};
ghost use Rattle.flatzinc.specs.Items as i;
ghost use Rattle.flatzinc.specs.Calls.{placed_all};
ghost use Rattle.flatrewriting.specs.Made.{Makes};
ghost use Rattle.flatrewriting.specs.Rewritten.{rewritten, clause_by, plain, by_numbers, by_ends};

use crate::arguments::{arguments_of, fault, list_in};
use crate::clauses::{put_call, put_clause, put_each, put_equal};
use crate::range::numbers_between;
use flatzinc::trouble::Trouble;
use flatzinc::{Argument, Atom, Call, Item, Value};
use models::code::Code;
use std::alloc::{AllocError, Global};

// Two atoms are equal.
fn bool_eq(alloc: Global, a: Atom, b: Atom) -> Result<Vec<Call>, AllocError>
    ensures { IfOk result (λ v. placed_all v.items ≡ rewritten (i.bool_eq a b)) }
{
    let mut calls = Vec::new(alloc);
    put_equal(alloc, &mut calls, a, b)?;
    Ok(calls)
}

// One atom follows from another.
fn bool_le(alloc: Global, a: Atom, b: Atom) -> Result<Vec<Call>, AllocError>
    ensures { IfOk result (λ v. placed_all v.items ≡ rewritten (i.bool_le a b)) }
{
    let mut calls = Vec::new(alloc);
    put_clause(alloc, &mut calls, &[b], &[a])?;
    Ok(calls)
}

// One atom is false, another is true.
fn bool_lt(alloc: Global, a: Atom, b: Atom) -> Result<Vec<Call>, AllocError>
    ensures { IfOk result (λ v. placed_all v.items ≡ rewritten (i.bool_lt a b)) }
{
    let mut calls = Vec::new(alloc);
    put_clause(alloc, &mut calls, &[b], &[])?;
    put_clause(alloc, &mut calls, &[], &[a])?;
    Ok(calls)
}

// Two atoms are not equal.
fn bool_unequal(alloc: Global, a: Atom, b: Atom) -> Result<Vec<Call>, AllocError>
    ensures { IfOk result (λ v. placed_all v.items ≡ rewritten (i.bool_unequal a b)) }
{
    let mut calls = Vec::new(alloc);
    put_call(
        alloc,
        &mut calls,
        Code::BoolNot,
        Argument::One(a),
        Argument::One(b),
    )?;
    Ok(calls)
}

// An atom is true where one of a list is.
fn array_bool_or(alloc: Global, atoms: &[Atom], r: Atom) -> Result<Vec<Call>, AllocError>
    ensures { IfOk result (λ v. placed_all v.items ≡ rewritten (i.array_bool_or atoms.now r)) }
{
    let mut calls = Vec::new(alloc);
    put_clause(alloc, &mut calls, atoms, &[r])?;
    put_each(alloc, &mut calls, r, atoms)?;
    Ok(calls)
}

// An atom is one of some numbers.
fn by_numbers(alloc: Global, x: Atom, numbers: Vec<i64>) -> Result<Vec<Call>, AllocError>
    ensures { IfOk result (λ v. placed_all v.items ≡ by_numbers x numbers.items) }
{
    let mut calls = Vec::new(alloc);
    put_call(
        alloc,
        &mut calls,
        Code::SetIn,
        Argument::One(x),
        Argument::Numbers(numbers),
    )?;
    Ok(calls)
}

// An atom lies between two numbers.
fn by_ends(alloc: Global, x: Atom, lo: i64, hi: i64) -> Result<Vec<Call>, AllocError>
    ensures { IfOk result (λ v. placed_all v.items ≡ by_ends x lo hi) }
{
    let low = Argument::One(Atom::Whole(lo));
    let high = Argument::One(Atom::Whole(hi));
    let mut calls = Vec::new(alloc);
    put_call(alloc, &mut calls, Code::IntLe, low, Argument::One(x))?;
    put_call(alloc, &mut calls, Code::IntLe, Argument::One(x), high)?;
    Ok(calls)
}

// An atom lies in a range.
fn set_in_range(alloc: Global, x: Atom, lo: i64, hi: i64) -> Result<Vec<Call>, AllocError>
    ensures { IfOk result (λ v. placed_all v.items ≡ rewritten (i.set_in_range x lo hi)) }
{
    match numbers_between(alloc, lo, hi)? {
        Some(numbers) => by_numbers(alloc, x, numbers),
        None => by_ends(alloc, x, lo, hi),
    }
}

// The clause of two lists.
fn pair_clause(alloc: Global, first: &Value, second: &Value) -> Result<Vec<Call>, Trouble>
    ensures { Makes result (clause_by (value first.now ∷ value second.now ∷ [])) }
{
    let positive = list_in(alloc, first)?;
    let negative = list_in(alloc, second)?;
    let mut calls = Vec::new(alloc);
    put_clause(alloc, &mut calls, &positive, &negative)?;
    Ok(calls)
}

// The clause of values.
#[tactic(auto, unfolding(crate::specs::Rewritten::clause_by))]
fn clause(alloc: Global, values: &[Value]) -> Result<Vec<Call>, Trouble>
    ensures { Makes result (clause_by (map value values.now)) }
{
    match values {
        [] => Err(fault(alloc, "two lists are due")),
        [_] => Err(fault(alloc, "two lists are due")),
        [first, second] => pair_clause(alloc, first, second),
        [_, _, _, ..] => Err(fault(alloc, "two lists are due")),
    }
}

// A builtin with a code, as it is.
fn plain(alloc: Global, code: Code, values: &[Value]) -> Result<Vec<Call>, Trouble>
    ensures { Makes result (plain (row code) (map value values.now)) }
{
    let arguments = arguments_of(alloc, code, values)?;
    Ok(vec![in alloc; Call { code, arguments }]?)
}

// A builtin with a code.
fn coded(alloc: Global, code: Code, values: &[Value]) -> Result<Vec<Call>, Trouble>
    ensures { Makes result (rewritten (i.coded (row code) (map value values.now))) }
{
    match code {
        Code::BoolClause => clause(alloc, values),
        _ => plain(alloc, code, values),
    }
}

// The calls of an item; a fault where its arguments are not those of its builtin.
#[tactic(auto, unfolding(crate::specs::Rewritten::rewritten))]
pub fn calls_of(alloc: Global, constraint: &Item) -> Result<Vec<Call>, Trouble>
    ensures { Makes result (rewritten (item constraint.now)) }
{
    match constraint {
        Item::Coded(code, values) => coded(alloc, *code, values),
        Item::BoolEq(a, b) => Ok(bool_eq(alloc, *a, *b)?),
        Item::BoolLe(a, b) => Ok(bool_le(alloc, *a, *b)?),
        Item::BoolLt(a, b) => Ok(bool_lt(alloc, *a, *b)?),
        Item::BoolUnequal(a, b) => Ok(bool_unequal(alloc, *a, *b)?),
        Item::ArrayBoolOr(atoms, r) => Ok(array_bool_or(alloc, atoms, *r)?),
        Item::SetInRange(x, lo, hi) => Ok(set_in_range(alloc, *x, *lo, *hi)?),
    }
}
