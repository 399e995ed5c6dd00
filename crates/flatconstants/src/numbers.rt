// Arguments over the numbers of variables.
ghost use Rattle.std.specs.Prelude.{◌≡◌, ◌+◌, ◌<◌, length, map, IfOk};
ghost use Rattle.flatzinc.specs.declared.Atom.TheVariants.{Variable};
ghost use Rattle.flatrewriting.specs.Arguments.{given};
ghost use Rattle.flatconstants.specs.Constants.{number_of};
ghost use Rattle.flatconstants.specs.Numbers.{over_numbers};
ghost use Rattle.flatconstants.specs.Indexed.{Indexed};

use crate::table::{Table, number_of};
use flatzinc::{Argument, Atom, Product};
use std::alloc::{AllocError, Global};

// The variables of atoms.
fn numbered_atoms(
    alloc: Global,
    table: &Table,
    others: usize,
    atoms: &[Atom],
) -> Result<Vec<Atom>, AllocError>
    requires indexed { Indexed table.now }
    requires room { others + length table.now.constants.items < 18446744073709551616 }
    ensures { IfOk result (λ v. v.items ≡ map (λ a. Variable (number_of others table.now.constants.items a)) atoms.now) }
{
    let mut variables = Vec::new(alloc);
    for &atom in atoms {
        variables.push(Atom::Variable(number_of(table, others, atom)))?;
    }
    Ok(variables)
}

// The same products of variables.
fn numbered_products(
    alloc: Global,
    table: &Table,
    others: usize,
    products: &[Product],
) -> Result<Vec<Product>, AllocError>
    requires indexed { Indexed table.now }
    requires room { others + length table.now.constants.items < 18446744073709551616 }
    ensures { IfOk result (λ v. v.items ≡ map (λ p. record { coefficient = p.coefficient; atom = Variable (number_of others table.now.constants.items p.atom) }) products.now) }
{
    let mut terms = Vec::new(alloc);
    for &product in products {
        let atom = Atom::Variable(number_of(table, others, product.atom));
        terms.push(Product { atom, ..product })?;
    }
    Ok(terms)
}

// The same argument of variables.
#[tactic(auto, unfolding(crate::specs::Numbers::over_numbers))]
fn numbered_argument(
    alloc: Global,
    table: &Table,
    others: usize,
    argument: &Argument,
) -> Result<Argument, AllocError>
    requires indexed { Indexed table.now }
    requires room { others + length table.now.constants.items < 18446744073709551616 }
    ensures { IfOk result (λ g. given g ≡ over_numbers (number_of others table.now.constants.items) (given argument.now)) }
{
    match argument {
        Argument::One(atom) => Ok(Argument::One(Atom::Variable(number_of(table, others, *atom)))),
        Argument::Number(number) => Ok(Argument::Number(*number)),
        Argument::Numbers(numbers) => Ok(Argument::Numbers(Vec::from_slice(alloc, numbers)?)),
        Argument::Many(atoms) => Ok(Argument::Many(numbered_atoms(alloc, table, others, atoms)?)),
        Argument::Sum(products) => Ok(Argument::Sum(numbered_products(
            alloc, table, others, products,
        )?)),
    }
}

// The same arguments of variables.
pub(crate) fn numbered_arguments(
    alloc: Global,
    table: &Table,
    others: usize,
    arguments: &[Argument],
) -> Result<Vec<Argument>, AllocError>
    requires indexed { Indexed table.now }
    requires room { others + length table.now.constants.items < 18446744073709551616 }
    ensures { IfOk result (λ v. map given v.items ≡ map (over_numbers (number_of others table.now.constants.items)) (map given arguments.now)) }
{
    let mut numbered = Vec::new(alloc);
    for argument in arguments {
        numbered.push(numbered_argument(alloc, table, others, argument)?)?;
    }
    Ok(numbered)
}
