// Lists longer than a model allows, cut by parts.
#![tactic(auto)]

ghost use Rattle.std.specs.Prelude.{ℕ, ◌≡◌, List, [], ◌∷◌, ◌++◌, ◌≤◌, map, length, nat_abs, ◌*◌, Some, IfSome, IfOk, OnOk};
ghost use Rattle.integers.specs.Choice.{◌if◌else◌};
ghost use Rattle.integers.specs.Number.{min_z, max_z, +0, -1};
ghost use Rattle.integers.specs.Bounds.{bounds_in};
ghost use Rattle.words.specs.Word.{in_range};
ghost use Rattle.integers.specs.Terms.{Term, ◌·◌};
ghost use Rattle.models.specs.Builtin.{Builtin, int_lin_eq, bool_clause, array_bool_and, array_int_maximum, array_int_minimum};
ghost use Rattle.flatzinc.specs.Calls.{numbers_of, terms_of, built_call, built_all};
ghost use Rattle.flatsplitting.specs.Split.{split, cut_size};
ghost use Rattle.flatzinc.specs.Numbers.{number_of, variable_bounds, bounds_of};
ghost use Rattle.flatsplitting.specs.Added.{built_of, term, product, weighted, product_term, bounds, Adds, AddsPart};
ghost use Rattle.flatsplitting.specs.IsSplit.{IsSplit};
ghost use Rattle.flatsplitting.specs.Called.{lists_of, list_at, terms_at, CutListAt, CutSumAt, CutCall};
ghost use Rattle.flatsplitting.specs.Pieces.{sum_ends, best_ends, product_ends, of_sum, of_some, of_best, of_list, cut_up};

use flatzinc::trouble::Trouble;
use flatzinc::{Argument, Atom, Call, ModelVariable, Product};
use integers::{Bounds, largest, least, pick, plus, times};
use models::code::Code;
use std::alloc::{AllocError, Global};
use words::limit::{HIGHEST, LIST_LENGTH, LOWEST};

// The bounds of a Boolean variable.
const BIT: Bounds = Bounds { lower: 0, upper: 1 };

// The variables of a model and its calls, to which parts and the calls that define them are added.
#[derive(Debug, Drop)]
pub struct Parted {
    pub variables: Vec<ModelVariable>,
    pub calls: Vec<Call>,
}

// How a list is read: by whether all are 1, by whether one is, by its largest, by its least.
#[derive(Clone, Copy, Debug, PartialEq, Eq)]
enum Reading {
    All,
    Any,
    Largest,
    Least,
}

// A coefficient and the number of its variable.
#[derive(Clone, Copy, Debug, PartialEq, Eq)]
struct Weighted {
    coefficient: i64,
    variable: usize,
}

// ---- lists of variables by their numbers, and back

fn numbers_of(alloc: Global, atoms: &[Atom]) -> Result<Vec<usize>, AllocError>
    ensures { IfOk result (λ v. v.items ≡ map number_of atoms.now) }
{
    atoms.iter().map(|a| a.number()).collect(alloc)
}

fn atoms_of(alloc: Global, numbers: &[usize]) -> Result<Vec<Atom>, AllocError>
    ensures { IfOk result (λ v. v.items ≡ map Atom.Variable numbers.now) }
{
    numbers.iter().map(|n| Atom::Variable(*n)).collect(alloc)
}

fn weighted_of(alloc: Global, products: &[Product]) -> Result<Vec<Weighted>, AllocError>
    ensures { IfOk result (λ v. v.items ≡ map weighted products.now) }
{
    products
        .iter()
        .map(|p| Weighted {
            coefficient: p.coefficient,
            variable: p.atom.number(),
        })
        .collect(alloc)
}

fn products_of(alloc: Global, terms: &[Weighted]) -> Result<Vec<Product>, AllocError>
    ensures { IfOk result (λ v. v.items ≡ map product terms.now) }
{
    terms
        .iter()
        .map(|w| Product {
            coefficient: w.coefficient,
            atom: Atom::Variable(w.variable),
        })
        .collect(alloc)
}

// ---- what is added to a model: a variable, calls

fn put_part(model: &mut Parted, is_boolean: bool, bounds: Bounds) -> Result<(), Trouble>
    ensures { OnOk result (Adds model.old model.new (variable_bounds is_boolean bounds ∷ []) []) }
{
    model.variables.push(ModelVariable { is_boolean, bounds })?;
    Ok(())
}

fn put_call(
    alloc: Global,
    model: &mut Parted,
    code: Code,
    first: Argument,
    second: Argument,
) -> Result<(), Trouble>
    ensures { OnOk result (Adds model.old model.new [] (built_of code (first ∷ second ∷ []) ∷ [])) }
{
    let mut arguments = Vec::new(alloc);
    arguments.push(first)?;
    arguments.push(second)?;
    model.calls.push(Call { code, arguments })?;
    Ok(())
}

// The first terms' sum is the part.
fn put_equation(
    alloc: Global,
    model: &mut Parted,
    first: &[Weighted],
    part: usize,
) -> Result<(), Trouble>
    ensures { OnOk result (Adds model.old model.new [] (Some (int_lin_eq (map term first.now ++ (-1 · part) ∷ []) +0) ∷ [])) }
{
    let mut products = products_of(alloc, first)?;
    products.push(Product {
        coefficient: -1,
        atom: Atom::Variable(part),
    })?;
    put_call(
        alloc,
        model,
        Code::IntLinEq,
        Argument::Sum(products),
        Argument::Number(0),
    )
}

// The part is 1 where all of the first are.
fn put_conjunction(
    alloc: Global,
    model: &mut Parted,
    first: &[usize],
    part: usize,
) -> Result<(), Trouble>
    ensures { OnOk result (Adds model.old model.new [] (Some (array_bool_and first.now part) ∷ [])) }
{
    let atoms = atoms_of(alloc, first)?;
    let part = Argument::One(Atom::Variable(part));
    put_call(
        alloc,
        model,
        Code::ArrayBoolAnd,
        Argument::Many(atoms),
        part,
    )
}

// One of the first is 1, or one of the others is 0.
fn put_clause(
    alloc: Global,
    model: &mut Parted,
    first: &[usize],
    others: &[usize],
) -> Result<(), Trouble>
    ensures { OnOk result (Adds model.old model.new [] (Some (bool_clause first.now others.now) ∷ [])) }
{
    let first = atoms_of(alloc, first)?;
    let others = atoms_of(alloc, others)?;
    put_call(
        alloc,
        model,
        Code::BoolClause,
        Argument::Many(first),
        Argument::Many(others),
    )
}

// The part is the largest or the least of the first.
fn put_best(
    alloc: Global,
    model: &mut Parted,
    largest: bool,
    first: &[usize],
    part: usize,
) -> Result<(), Trouble>
    ensures { OnOk result (Adds model.old model.new [] (Some ((array_int_maximum if largest else array_int_minimum) part first.now) ∷ [])) }
{
    let atoms = Argument::Many(atoms_of(alloc, first)?);
    let part = Argument::One(Atom::Variable(part));
    if largest {
        return put_call(alloc, model, Code::ArrayIntMaximum, part, atoms);
    }
    put_call(alloc, model, Code::ArrayIntMinimum, part, atoms)
}

// ---- parts

// The bounds of a variable, 0 and 0 past the last one.
#[tactic(auto, unfolding(integers::specs::Bounds::bounds_in))]
fn bounds_at(variables: &[ModelVariable], v: usize) -> Bounds
    ensures { result ≡ bounds_in (bounds_of variables.now) v }
{
    match variables.get(v) {
        Some(variable) => variable.limits(),
        None => Bounds { lower: 0, upper: 0 },
    }
}

// The bounds of the largest or the least of some variables.
#[tactic(auto, unfolding(crate::specs::Split::best_by))]
fn best_bounds(variables: &[ModelVariable], largest: bool, numbers: &[usize]) -> Bounds
    ensures { result ≡ best_ends (max_z if largest else min_z) (bounds_of variables.now) numbers.now }
{
    let Some((v, others)) = numbers.split_first() else {
        return Bounds { lower: 0, upper: 0 };
    };
    let here = bounds_at(variables, *v);
    if others.is_empty() {
        return here;
    }
    let best = best_bounds(variables, largest, others);
    Bounds {
        lower: pick(here.lower, best.lower, largest),
        upper: pick(here.upper, best.upper, largest),
    }
}

// Whether a number is in the range.
#[tactic(auto, unfolding(integers::specs::Bounds::within))]
fn is_in_range(n: i64) -> bool
    ensures { result ≡ in_range n }
{
    LOWEST <= n && n <= HIGHEST
}

// The bounds of a number's product with a variable, where all are in the range.
#[tactic(auto)]
fn product_bounds(n: i64, b: Bounds) -> Option<Bounds>
    ensures value { IfSome result (λ P. P ≡ product_ends n b) }
    ensures size { IfSome result (λ P. (nat_abs P.lower ≤ 18014398509481984) × (nat_abs P.upper ≤ 18014398509481984)) }
{
    if !is_in_range(n) || !is_in_range(b.lower) || !is_in_range(b.upper) {
        return None;
    }
    let low = times(n, b.lower);
    let high = times(n, b.upper);
    Some(Bounds {
        lower: least(low, high),
        upper: largest(low, high),
    })
}

// The bounds of a sum, where all numbers are in the range.
#[tactic(auto, unfolding(rules::specs::Parts::extreme))]
fn sum_bounds(variables: &[ModelVariable], terms: &[Weighted]) -> Option<Bounds>
    requires { length terms.now ≤ 32 }
    ensures value { IfSome result (λ B. B ≡ sum_ends (bounds_of variables.now) (map term terms.now)) }
    ensures size { IfSome result (λ B. (nat_abs B.lower ≤ length terms.now * 18014398509481984) × (nat_abs B.upper ≤ length terms.now * 18014398509481984)) }
{
    let Some((t, others)) = terms.split_first() else {
        return Some(Bounds { lower: 0, upper: 0 });
    };
    let here = product_bounds(t.coefficient, bounds_at(variables, t.variable))?;
    let rest = sum_bounds(variables, others)?;
    Some(Bounds {
        lower: plus(here.lower, rest.lower),
        upper: plus(here.upper, rest.upper),
    })
}

// The number of the next part.
fn next_part(model: &Parted) -> usize
    ensures { result ≡ length (bounds model.now) }
{
    model.variables.len()
}

// The part is 1, or each of the first is 0.
fn put_implications(
    alloc: Global,
    model: &mut Parted,
    first: &[usize],
    part: usize,
) -> Result<(), Trouble>
    ensures { OnOk result (Adds model.old model.new [] (map (λ x. Some (bool_clause (part ∷ []) (x ∷ []))) first.now)) }
{
    for x in first {
        put_clause(alloc, model, &[part], &[*x])?;
    }
    Ok(())
}

// The part is 1 where one of the first is.
fn put_choice(
    alloc: Global,
    model: &mut Parted,
    first: &[usize],
    part: usize,
) -> Result<(), Trouble>
    ensures { OnOk result (Adds model.old model.new [] (map Some (of_some.defining part first.now))) }
{
    put_clause(alloc, model, first, &[part])?;
    put_implications(alloc, model, first, part)
}

// The part that is the largest or the least of the first.
fn best_part(
    alloc: Global,
    model: &mut Parted,
    largest: bool,
    first: &[usize],
) -> Result<(), Trouble>
    ensures { OnOk result (AddsPart (of_best (max_z if largest else min_z) (array_int_maximum if largest else array_int_minimum)) model.old model.new first.now) }
{
    let part = next_part(model);
    let ends = best_bounds(&model.variables, largest, first);
    put_part(model, false, ends)?;
    put_best(alloc, model, largest, first, part)
}

// The part that stands for the first of a list.
fn list_part(
    alloc: Global,
    model: &mut Parted,
    reading: Reading,
    first: &[usize],
) -> Result<(), Trouble>
    ensures { OnOk result (AddsPart (of_list reading) model.old model.new first.now) }
{
    let part = next_part(model);
    match reading {
        Reading::All => {
            put_part(model, true, BIT)?;
            put_conjunction(alloc, model, first, part)
        }
        Reading::Any => {
            put_part(model, true, BIT)?;
            put_choice(alloc, model, first, part)
        }
        Reading::Largest => best_part(alloc, model, true, first),
        Reading::Least => best_part(alloc, model, false, first),
    }
}

// A part of a sum that is not in the range; a sum of which a number is not.
#[cold]
fn part_too_far(alloc: Global, ends: Bounds) -> Trouble {
    let lower = ends.lower;
    let upper = ends.upper;
    Trouble::told(format!(in alloc;
        "part reaches from {lower} to {upper}, the range is {LOWEST} to {HIGHEST}"
    ))
}

#[cold]
fn number_too_far(alloc: Global) -> Trouble {
    Trouble::told(format!(in alloc; "a number of a sum is outside the range {LOWEST} to {HIGHEST}"))
}

// The part that is the sum of the first terms.
fn sum_part(alloc: Global, model: &mut Parted, first: &[Weighted]) -> Result<(), Trouble>
    requires { length first.now ≤ 32 }
    ensures { OnOk result (AddsPart of_sum model.old model.new (map term first.now)) }
{
    let part = next_part(model);
    let Some(ends) = sum_bounds(&model.variables, first) else {
        return Err(number_too_far(alloc));
    };
    if !is_in_range(ends.lower) || !is_in_range(ends.upper) {
        return Err(part_too_far(alloc, ends));
    }
    put_part(model, false, ends)?;
    put_equation(alloc, model, first, part)
}

// ---- long lists, cut until they are short

// How many elements a part stands for.
fn part_size(reading: Reading) -> usize
    ensures { result ≡ (of_list reading).at }
{
    match reading {
        Reading::Any => 31,
        Reading::All => 32,
        Reading::Largest => 32,
        Reading::Least => 32,
    }
}

fn cut_list(
    alloc: Global,
    model: &mut Parted,
    reading: Reading,
    mut numbers: Vec<usize>,
) -> Result<Vec<usize>, Trouble>
    ensures { IfOk result (λ rest. let p = cut_up (of_list reading) (bounds model.old) numbers.items in Adds model.old model.new p.bounds (map Some p.builtins) × (rest.items ≡ p.rest)) }
{
    let size = part_size(reading);
    let mut at = 0;
    'cutting: while numbers.len() - at > LIST_LENGTH {
        let part = next_part(model);
        list_part(alloc, model, reading, &numbers[at..at + size])?;
        numbers.push(part)?;
        at += size;
    }
    Ok(Vec::from_slice(alloc, &numbers[at..])?)
}

fn cut_sum(
    alloc: Global,
    model: &mut Parted,
    mut terms: Vec<Weighted>,
) -> Result<Vec<Weighted>, Trouble>
    ensures { IfOk result (λ rest. let p = cut_up of_sum (bounds model.old) (map term terms.items) in Adds model.old model.new p.bounds (map Some p.builtins) × (map term rest.items ≡ p.rest)) }
{
    let size = LIST_LENGTH - 1;
    let mut at = 0;
    'cutting: while terms.len() - at > LIST_LENGTH {
        let part = next_part(model);
        sum_part(alloc, model, &terms[at..at + size])?;
        terms.push(Weighted {
            coefficient: 1,
            variable: part,
        })?;
        at += size;
    }
    Ok(Vec::from_slice(alloc, &terms[at..])?)
}

// ---- the lists of calls

// Which lists of a call are cut: its sum, its first argument, its second one, both of a clause, none.
#[derive(Clone, Copy, Debug, PartialEq, Eq)]
enum Lists {
    OfSum,
    First(Reading),
    Second(Reading),
    OfClause,
    Nowhere,
}

fn lists_of(code: Code) -> Lists
    ensures { result ≡ lists_of code }
{
    match code {
        Code::IntLinEq | Code::IntLinLe | Code::IntLinNe => Lists::OfSum,
        Code::IntLinEqReif | Code::IntLinLeReif | Code::IntLinNeReif => Lists::OfSum,
        Code::ArrayBoolAnd => Lists::First(Reading::All),
        Code::BoolClause => Lists::OfClause,
        Code::ArrayIntMaximum => Lists::Second(Reading::Largest),
        Code::ArrayIntMinimum => Lists::Second(Reading::Least),
        _ => Lists::Nowhere,
    }
}

// What is left of a list of atoms, and of the products of a sum.
fn cut_atoms(
    alloc: Global,
    model: &mut Parted,
    reading: Reading,
    atoms: &[Atom],
) -> Result<Vec<Atom>, Trouble>
    ensures { IfOk result (λ v. let p = cut_up (of_list reading) (bounds model.old) (map number_of atoms.now) in Adds model.old model.new p.bounds (map Some p.builtins) × (numbers_of v.items ≡ Some p.rest)) }
{
    let numbers = numbers_of(alloc, atoms)?;
    let rest = cut_list(alloc, model, reading, numbers)?;
    Ok(atoms_of(alloc, &rest)?)
}

fn cut_products(
    alloc: Global,
    model: &mut Parted,
    products: &[Product],
) -> Result<Vec<Product>, Trouble>
    ensures { IfOk result (λ v. let p = cut_up of_sum (bounds model.old) (map product_term products.now) in Adds model.old model.new p.bounds (map Some p.builtins) × (terms_of v.items ≡ Some p.rest)) }
{
    let terms = weighted_of(alloc, products)?;
    let rest = cut_sum(alloc, model, terms)?;
    Ok(products_of(alloc, &rest)?)
}

// The list at a place of a call's arguments is cut, and its sum.
fn cut_list_at(
    alloc: Global,
    model: &mut Parted,
    reading: Reading,
    arguments: &mut Vec<Argument>,
    at: usize,
) -> Result<(), Trouble>
    ensures { (xs : List ℕ) → list_at arguments.old.items at ≡ Some xs → OnOk result (CutListAt (of_list reading) model.old model.new arguments.old.items arguments.new.items at xs) }
{
    let rest = match arguments.get(at) {
        Some(Argument::Many(atoms)) => cut_atoms(alloc, model, reading, atoms)?,
        _ => return Ok(()),
    };
    arguments[at] = Argument::Many(rest);
    Ok(())
}

fn cut_sum_at(
    alloc: Global,
    model: &mut Parted,
    arguments: &mut Vec<Argument>,
) -> Result<(), Trouble>
    ensures { (ts : List (Term ℕ)) → terms_at arguments.old.items 0 ≡ Some ts → OnOk result (CutSumAt model.old model.new arguments.old.items arguments.new.items ts) }
{
    let rest = match arguments.get(0) {
        Some(Argument::Sum(products)) => cut_products(alloc, model, products)?,
        _ => return Ok(()),
    };
    arguments[0] = Argument::Sum(rest);
    Ok(())
}

// The long lists of a call are cut.
fn cut_call(
    alloc: Global,
    model: &mut Parted,
    code: Code,
    arguments: &mut Vec<Argument>,
) -> Result<(), Trouble>
    ensures { (b : Builtin) → built_of code arguments.old.items ≡ Some b → OnOk result (CutCall model.old model.new code arguments.new.items b) }
{
    match lists_of(code) {
        Lists::OfSum => cut_sum_at(alloc, model, arguments),
        Lists::First(reading) => cut_list_at(alloc, model, reading, arguments, 0),
        Lists::Second(reading) => cut_list_at(alloc, model, reading, arguments, 1),
        Lists::OfClause => {
            cut_list_at(alloc, model, Reading::Any, arguments, 0)?;
            cut_list_at(alloc, model, Reading::All, arguments, 1)
        }
        Lists::Nowhere => Ok(()),
    }
}

// A call is put to the model, its long lists cut.
fn split_call(alloc: Global, model: &mut Parted, call: Call) -> Result<(), Trouble>
    ensures { (b : Builtin) → built_call call ≡ Some b → OnOk result (let S = split (cut_size b) (bounds model.old) b in Adds model.old model.new S.bounds (map Some S.builtins)) }
{
    let Call {
        code,
        mut arguments,
    } = call;
    cut_call(alloc, model, code, &mut arguments)?;
    model.calls.push(Call { code, arguments })?;
    Ok(())
}

// The model of these variables and calls with its long lists cut: the parts stand after the variables.
pub fn split_lists(
    alloc: Global,
    variables: Vec<ModelVariable>,
    calls: Vec<Call>,
) -> Result<Parted, Trouble>
    ensures { (bs : List Builtin) → built_all calls.items ≡ Some bs → IfOk result (λ model. IsSplit (bounds_of variables.items) bs model) }
{
    let mut model = Parted {
        variables,
        calls: Vec::new(alloc),
    };
    for call in calls {
        split_call(alloc, &mut model, call)?;
    }
    Ok(model)
}

#[cfg(test)]
mod tests {
    use super::*;
    use std::test::Fail;

    // A sum of 40 variables from 0 to 3 is cut once: its part reaches from 0 to 93, and 10 terms are left.
    #[test]
    fn sum_of_40(rt: HostRuntime) -> Result<(), Fail> {
        let alloc = rt.alloc();
        let mut variables = Vec::new(alloc);
        let mut products = Vec::new(alloc);
        for v in 0..40 {
            variables.push(ModelVariable {
                is_boolean: false,
                bounds: Bounds { lower: 0, upper: 3 },
            })?;
            products.push(Product {
                coefficient: 1,
                atom: Atom::Variable(v),
            })?;
        }
        let mut arguments = Vec::new(alloc);
        arguments.push(Argument::Sum(products))?;
        arguments.push(Argument::Number(7))?;
        let mut calls = Vec::new(alloc);
        calls.push(Call {
            code: Code::IntLinLe,
            arguments,
        })?;
        let model = split_lists(alloc, variables, calls)?;
        assert_eq!(rt; model.variables.len(), 41);
        assert_eq!(rt; model.calls.len(), 2);
        let part = model.variables.get(40).ok_or("no part")?;
        assert_eq!(rt;
            part.bounds,
            Bounds {
                lower: 0,
                upper: 93
            }
        );
        assert_eq!(rt; part.is_boolean, false);
        Ok(())
    }
}
