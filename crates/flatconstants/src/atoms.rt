// The atoms of calls, in their order.
ghost use Rattle.std.specs.Prelude.{◌≡◌, ◌++◌, map, IfOk, OnOk};
ghost use Rattle.flatzinc.specs.Calls.{atoms_in};
ghost use Rattle.flatrewriting.specs.Arguments.{given};
ghost use Rattle.flatconstants.specs.Numbers.{given_atoms, givens_atoms, calls_atoms};

use flatzinc::{Argument, Atom, Call, Product};
use std::alloc::{AllocError, Global};

// Adds the atoms of products.
fn put_products(atoms: &mut Vec<Atom>, products: &[Product]) -> Result<(), AllocError>
    ensures { OnOk result (atoms.new.items ≡ atoms.old.items ++ atoms_in products.now) }
{
    for &product in products {
        atoms.push(product.atom)?;
    }
    Ok(())
}

// Adds the atoms of an argument.
fn put_argument(atoms: &mut Vec<Atom>, argument: &Argument) -> Result<(), AllocError>
    ensures { OnOk result (atoms.new.items ≡ atoms.old.items ++ given_atoms (given argument.now)) }
{
    match argument {
        Argument::One(atom) => {
            atoms.push(*atom)?;
            Ok(())
        }
        Argument::Number(_) => Ok(()),
        Argument::Numbers(_) => Ok(()),
        Argument::Many(list) => atoms.extend_from_slice(list),
        Argument::Sum(products) => put_products(atoms, products),
    }
}

// Adds the atoms of arguments.
fn put_arguments(atoms: &mut Vec<Atom>, arguments: &[Argument]) -> Result<(), AllocError>
    ensures { OnOk result (atoms.new.items ≡ atoms.old.items ++ givens_atoms (map given arguments.now)) }
{
    for argument in arguments {
        put_argument(atoms, argument)?;
    }
    Ok(())
}

// The atoms of calls.
pub(crate) fn atoms_of(alloc: Global, calls: &[Call]) -> Result<Vec<Atom>, AllocError>
    ensures { IfOk result (λ v. v.items ≡ calls_atoms calls.now) }
{
    let mut atoms = Vec::new(alloc);
    for call in calls {
        put_arguments(&mut atoms, &call.arguments)?;
    }
    Ok(atoms)
}
