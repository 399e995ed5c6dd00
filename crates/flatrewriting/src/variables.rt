// What is asked of one variable: its domain, and the value that it is declared equal to.
ghost use Rattle.std.specs.Prelude.{◌≡◌, [], ◌∷◌, IfOk, OnOk};
ghost use Rattle.models.specs.Builtin.{int_eq};
ghost use Rattle.flatzinc.specs.Seen.{domain, declared};
ghost use Rattle.flatzinc.specs.Calls.{placed_all};
ghost use Rattle.flatrewriting.specs.Made.{and_more, and_all};
ghost use Rattle.flatrewriting.specs.Variables.{lowest, lowest_from, highest, highest_from, domain_bounds, domain_items, equal_items, given_items, all_items};

use crate::clauses::{put_call, put_equal};
use flatzinc::{Argument, Atom, Call, Declared, Domain};
use integers::{Bounds, largest, least};
use models::code::Code;
use std::alloc::{AllocError, Global};

// The least of a number and others.
fn lowest_from(first: i64, others: &[i64]) -> i64
    ensures { result ≡ lowest_from first others.now }
{
    let mut lowest = first;
    for &number in others {
        lowest = least(lowest, number);
    }
    lowest
}

// The largest of a number and others.
fn highest_from(first: i64, others: &[i64]) -> i64
    ensures { result ≡ highest_from first others.now }
{
    let mut highest = first;
    for &number in others {
        highest = largest(highest, number);
    }
    highest
}

// The least of some numbers.
#[tactic(auto, unfolding(crate::specs::Variables::lowest))]
fn lowest(numbers: &[i64]) -> i64
    ensures { result ≡ lowest numbers.now }
{
    match numbers {
        [] => 0,
        [first, others @ ..] => lowest_from(*first, others),
    }
}

// The largest of some numbers.
#[tactic(auto, unfolding(crate::specs::Variables::highest))]
fn highest(numbers: &[i64]) -> i64
    ensures { result ≡ highest numbers.now }
{
    match numbers {
        [] => 0,
        [first, others @ ..] => highest_from(*first, others),
    }
}

// The bounds of a domain.
#[tactic(auto, unfolding(crate::specs::Variables::domain_bounds))]
pub fn bounds_of_domain(all: &Domain) -> Bounds
    ensures { result ≡ domain_bounds (domain all.now) }
{
    match all {
        Domain::Bools => Bounds { lower: 0, upper: 1 },
        Domain::Between(lower, upper) => Bounds {
            lower: *lower,
            upper: *upper,
        },
        Domain::Among(members) => Bounds {
            lower: lowest(members),
            upper: highest(members),
        },
    }
}

// Adds that a variable lies in a domain, where its bounds do not say it.
#[tactic(auto, unfolding(crate::specs::Variables::domain_items))]
fn put_domain(
    alloc: Global,
    calls: &mut Vec<Call>,
    number: usize,
    all: &Domain,
) -> Result<(), AllocError>
    ensures { OnOk result (placed_all calls.new.items ≡ and_more (placed_all calls.old.items) (domain_items number (domain all.now))) }
{
    match all {
        Domain::Bools => Ok(()),
        Domain::Between(_, _) => Ok(()),
        Domain::Among(members) => {
            let numbers = Argument::Numbers(Vec::from_slice(alloc, members)?);
            let variable = Argument::One(Atom::Variable(number));
            put_call(alloc, calls, Code::SetIn, variable, numbers)
        }
    }
}

// Adds that two atoms are the same number.
#[tactic(auto, unfolding(crate::specs::Arguments::placed_given, crate::specs::Arguments::at_given))]
fn put_int_eq(alloc: Global, calls: &mut Vec<Call>, a: Atom, b: Atom) -> Result<(), AllocError>
    ensures { OnOk result (placed_all calls.new.items ≡ and_more (placed_all calls.old.items) (record { builtin = int_eq 0 1; atoms = a ∷ b ∷ [] } ∷ [])) }
{
    put_call(
        alloc,
        calls,
        Code::IntEq,
        Argument::One(a),
        Argument::One(b),
    )
}

// Adds that a variable of a domain equals an atom.
#[tactic(auto, unfolding(crate::specs::Variables::equal_items, crate::specs::Rewritten::rewritten))]
fn put_equal_to(
    alloc: Global,
    calls: &mut Vec<Call>,
    number: usize,
    all: &Domain,
    atom: Atom,
) -> Result<(), AllocError>
    ensures { OnOk result (placed_all calls.new.items ≡ and_all (placed_all calls.old.items) (equal_items number (domain all.now) atom)) }
{
    let variable = Atom::Variable(number);
    match all {
        Domain::Bools => put_equal(alloc, calls, variable, atom),
        Domain::Between(_, _) => put_int_eq(alloc, calls, variable, atom),
        Domain::Among(_) => put_int_eq(alloc, calls, variable, atom),
    }
}

// Adds that a variable equals the value that it is declared equal to.
#[tactic(auto, unfolding(crate::specs::Variables::given_items))]
fn put_given(
    alloc: Global,
    calls: &mut Vec<Call>,
    number: usize,
    variable: &Declared,
) -> Result<(), AllocError>
    ensures { OnOk result (placed_all calls.new.items ≡ and_all (placed_all calls.old.items) (given_items number (domain variable.now.domain) variable.now.given)) }
{
    match variable.given {
        None => Ok(()),
        Some(atom) => put_equal_to(alloc, calls, number, &variable.domain, atom),
    }
}

// The calls of a variable.
pub fn calls_of_variable(
    alloc: Global,
    number: usize,
    variable: &Declared,
) -> Result<Vec<Call>, AllocError>
    ensures { IfOk result (λ v. placed_all v.items ≡ all_items number (declared variable.now)) }
{
    let mut calls = Vec::new(alloc);
    put_domain(alloc, &mut calls, number, &variable.domain)?;
    put_given(alloc, &mut calls, number, variable)?;
    Ok(calls)
}
