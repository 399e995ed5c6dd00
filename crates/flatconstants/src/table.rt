// The table of constants, each once, as they come.
ghost use Rattle.std.specs.Prelude.{◌≡◌, ◌+◌, ◌<◌, [], length, true, false, None, IfOk, OnOk};
ghost use Rattle.flatzinc.specs.declared.Atom.TheVariants.{Whole, Truth};
ghost use Rattle.flatconstants.specs.Constants.{number_of, collected};
ghost use Rattle.flatconstants.specs.Numbers.{found, with_constant};
ghost use Rattle.flatconstants.specs.Indexed.{Indexed};

use crate::places::{no_places, place_in, put_place};
use flatzinc::Atom;
use std::alloc::{AllocError, Global};
use std::collections::BTreeMap;

// The constants, and the place of each: of numbers, of false, of true.
#[derive(Drop)]
pub struct Table {
    pub constants: Vec<Atom>,
    wholes: BTreeMap<i64, usize>,
    no: Option<usize>,
    yes: Option<usize>,
}

// The place of a constant.
fn place_of(table: &Table, atom: Atom) -> Option<usize>
    requires { Indexed table.now }
    ensures { result ≡ found table.now.constants.items atom }
{
    match atom {
        Atom::Whole(number) => place_in(&table.wholes, number),
        Atom::Truth(false) => table.no,
        Atom::Truth(true) => table.yes,
        Atom::Variable(_) => None,
    }
}

// Adds a number, which is new.
fn put_new_whole(table: &mut Table, number: i64) -> Result<(), AllocError>
    requires indexed { Indexed table.old }
    requires new { found table.old.constants.items (Whole number) ≡ None }
    ensures indexed { OnOk result (Indexed table.new) }
    ensures constants { OnOk result (table.new.constants.items ≡ with_constant table.old.constants.items (Whole number)) }
{
    let place = table.constants.len();
    put_place(&mut table.wholes, number, place)?;
    table.constants.push(Atom::Whole(number))?;
    Ok(())
}

// Adds a number, if it is new.
fn put_whole(table: &mut Table, number: i64) -> Result<(), AllocError>
    requires { Indexed table.old }
    ensures indexed { OnOk result (Indexed table.new) }
    ensures constants { OnOk result (table.new.constants.items ≡ with_constant table.old.constants.items (Whole number)) }
{
    match place_in(&table.wholes, number) {
        Some(_) => Ok(()),
        None => put_new_whole(table, number),
    }
}

// Adds false, which is new.
fn put_new_false(table: &mut Table) -> Result<(), AllocError>
    requires indexed { Indexed table.old }
    requires new { found table.old.constants.items (Truth false) ≡ None }
    ensures indexed { OnOk result (Indexed table.new) }
    ensures constants { OnOk result (table.new.constants.items ≡ with_constant table.old.constants.items (Truth false)) }
{
    let place = table.constants.len();
    table.no = Some(place);
    table.constants.push(Atom::Truth(false))?;
    Ok(())
}

// Adds false, if it is new.
fn put_false(table: &mut Table) -> Result<(), AllocError>
    requires { Indexed table.old }
    ensures indexed { OnOk result (Indexed table.new) }
    ensures constants { OnOk result (table.new.constants.items ≡ with_constant table.old.constants.items (Truth false)) }
{
    match table.no {
        Some(_) => Ok(()),
        None => put_new_false(table),
    }
}

// Adds true, which is new.
fn put_new_true(table: &mut Table) -> Result<(), AllocError>
    requires indexed { Indexed table.old }
    requires new { found table.old.constants.items (Truth true) ≡ None }
    ensures indexed { OnOk result (Indexed table.new) }
    ensures constants { OnOk result (table.new.constants.items ≡ with_constant table.old.constants.items (Truth true)) }
{
    let place = table.constants.len();
    table.yes = Some(place);
    table.constants.push(Atom::Truth(true))?;
    Ok(())
}

// Adds true, if it is new.
fn put_true(table: &mut Table) -> Result<(), AllocError>
    requires { Indexed table.old }
    ensures indexed { OnOk result (Indexed table.new) }
    ensures constants { OnOk result (table.new.constants.items ≡ with_constant table.old.constants.items (Truth true)) }
{
    match table.yes {
        Some(_) => Ok(()),
        None => put_new_true(table),
    }
}

// Adds a constant that is new.
#[tactic(auto, unfolding(crate::specs::Constants::known))]
fn put_atom(table: &mut Table, atom: Atom) -> Result<(), AllocError>
    requires { Indexed table.old }
    ensures indexed { OnOk result (Indexed table.new) }
    ensures constants { OnOk result (table.new.constants.items ≡ with_constant table.old.constants.items atom) }
{
    match atom {
        Atom::Whole(number) => put_whole(table, number),
        Atom::Truth(false) => put_false(table),
        Atom::Truth(true) => put_true(table),
        Atom::Variable(_) => Ok(()),
    }
}

// The table without constants.
fn empty_table(alloc: Global) -> Table
    ensures indexed { Indexed result }
    ensures constants { result.constants.items ≡ [] }
{
    Table {
        constants: Vec::new(alloc),
        wholes: no_places(alloc),
        no: None,
        yes: None,
    }
}

// The table of the constants among atoms.
pub(crate) fn table_of(alloc: Global, atoms: &[Atom]) -> Result<Table, AllocError>
    ensures indexed { IfOk result Indexed }
    ensures constants { IfOk result (λ t. t.constants.items ≡ collected [] atoms.now) }
{
    let mut table = empty_table(alloc);
    for &atom in atoms {
        put_atom(&mut table, atom)?;
    }
    Ok(table)
}

// The number of an atom's variable, after so many others.
#[tactic(auto, unfolding(crate::specs::Constants::number_of))]
pub(crate) fn number_of(table: &Table, others: usize, atom: Atom) -> usize
    requires indexed { Indexed table.now }
    requires room { others + length table.now.constants.items < 18446744073709551616 }
    ensures { result ≡ number_of others table.now.constants.items atom }
{
    match atom {
        Atom::Whole(_) => others + place_of(table, atom).unwrap_or(table.constants.len()),
        Atom::Truth(_) => others + place_of(table, atom).unwrap_or(table.constants.len()),
        Atom::Variable(number) => number,
    }
}
