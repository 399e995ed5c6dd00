// The model's names for the elements of an output array.
ghost use Rattle.std.specs.Prelude.{◌≡◌, map, OnOk};
ghost use Rattle.flattext.specs.SeenCalled.{called};
ghost use Rattle.flattext.specs.Elements.{labelled_at, labelled_element, labelled_from};

use crate::text::Called;
use flatplaces::annotations::IndexSet;
use flatplaces::labels::element_name;
use flatzinc::Atom;
use std::alloc::{AllocError, Global};

// An output array: its name, and its index sets, the last one first.
#[derive(Clone, Copy, Debug)]
pub struct Array<'a> {
    pub name: &'a [u8],
    pub sets: &'a [IndexSet],
}

// Gives a variable a name of the model more.
fn label_variable(names: &mut [Called], v: usize, label: &[u8]) -> Result<(), AllocError>
    ensures { OnOk result (map called names.new ≡ labelled_at (map called names.old) v label.now) }
{
    if v < names.len() {
        return names[v].label(label);
    }
    Ok(())
}

// Gives the variable that is an array's k-th element its name, ARRAY[INDEX,..].
fn label_element(
    alloc: Global,
    names: &mut [Called],
    array: &Array<'_>,
    k: usize,
    atom: Atom,
) -> Result<(), AllocError>
    ensures { OnOk result (map called names.new ≡ labelled_element (map called names.old) array.now.name.now array.now.sets.now k atom) }
{
    let Atom::Variable(v) = atom else {
        return Ok(());
    };
    match element_name(alloc, array.name, array.sets, k)? {
        None => Ok(()),
        Some(label) => label_variable(names, v, &label),
    }
}

// Gives the variables among an output array's elements the model's names for them.
pub fn label_elements(
    alloc: Global,
    names: &mut [Called],
    array: &Array<'_>,
    atoms: &[Atom],
) -> Result<(), AllocError>
    ensures { OnOk result (map called names.new ≡ labelled_from (map called names.old) array.now.name.now array.now.sets.now 0 atoms.now) }
{
    for (k, atom) in atoms.iter().enumerate() {
        label_element(alloc, names, array, k, *atom)?;
    }
    Ok(())
}
