// Calls of atoms as calls of variables, with a variable for each constant.
ghost use Rattle.std.specs.Prelude.{◌≡◌, ◌+◌, ◌<◌, length, true, IfOk, OnOk};
ghost use Rattle.integers.specs.Lists.{all};
ghost use Rattle.flatconstants.specs.Numbers.{is_declared, calls_atoms};
ghost use Rattle.flatconstants.specs.Indexed.{Indexed};
ghost use Rattle.flatconstants.specs.Whole.{SameCall, SameCalls, IsNumbered};

use crate::atoms::atoms_of;
use crate::constant::{put_constants, put_variables};
use crate::numbers::numbered_arguments;
use crate::shorter::shorter;
use crate::table::{Table, table_of};
use flatzinc::trouble::Trouble;
use flatzinc::{Atom, Call, ModelVariable};
use std::alloc::{AllocError, Global};

// A model's variables and calls.
#[derive(Debug, Drop)]
pub struct Numbered {
    pub variables: Vec<ModelVariable>,
    pub calls: Vec<Call>,
}

// The same call of variables, or the shorter one.
fn numbered_call(
    alloc: Global,
    table: &Table,
    others: usize,
    call: &Call,
) -> Result<Call, AllocError>
    requires indexed { Indexed table.now }
    requires room { others + length table.now.constants.items < 18446744073709551616 }
    ensures { IfOk result (SameCall others table.now.constants.items call.now) }
{
    let arguments = numbered_arguments(alloc, table, others, &call.arguments)?;
    let long = Call {
        code: call.code,
        arguments,
    };
    shorter(alloc, long)
}

// Adds the same calls of variables, or the shorter ones.
fn put_numbered(
    alloc: Global,
    numbered: &mut Vec<Call>,
    table: &Table,
    others: usize,
    calls: &[Call],
) -> Result<(), AllocError>
    requires indexed { Indexed table.now }
    requires room { others + length table.now.constants.items < 18446744073709551616 }
    ensures { OnOk result (SameCalls others table.now.constants.items calls.now numbered.old.items numbered.new.items) }
{
    for call in calls {
        numbered.push(numbered_call(alloc, table, others, call)?)?;
    }
    Ok(())
}

// Whether each variable is one of so many.
fn are_declared(others: usize, atoms: &[Atom]) -> bool
    ensures { result ≡ all (is_declared others) atoms.now }
{
    for &atom in atoms {
        if !is_declared(others, atom) {
            return false;
        }
    }
    true
}

// Whether an atom is a constant, or one of so many variables.
#[tactic(auto, unfolding(crate::specs::Numbers::is_declared))]
fn is_declared(others: usize, atom: Atom) -> bool
    ensures { result ≡ is_declared others atom }
{
    match atom {
        Atom::Whole(_) => true,
        Atom::Truth(_) => true,
        Atom::Variable(number) => number < others,
    }
}

// Calls of atoms as calls of variables: those of FlatZinc, and one for each constant; a fault where one is not declared.
pub fn number(
    alloc: Global,
    variables: Vec<ModelVariable>,
    calls: &[Call],
) -> Result<Numbered, Trouble>
    ensures numbered { IfOk result (IsNumbered variables.items calls.now) }
    ensures declared { OnOk result (all (is_declared (length variables.items)) (calls_atoms calls.now) ≡ true) }
{
    let others = variables.len();
    let atoms = atoms_of(alloc, calls)?;
    if !are_declared(others, &atoms) {
        let message = String::from_str(alloc, "a variable that is not declared");
        return Err(Trouble::told(message));
    }
    let table = table_of(alloc, &atoms)?;
    let mut variables = variables;
    put_variables(&mut variables, &table.constants)?;
    let mut numbered = Vec::new(alloc);
    put_constants(alloc, &mut numbered, others, &table.constants)?;
    put_numbered(alloc, &mut numbered, &table, others, calls)?;
    Ok(Numbered {
        variables,
        calls: numbered,
    })
}
