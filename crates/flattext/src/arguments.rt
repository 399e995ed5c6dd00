// The text of a call's arguments.
ghost use Rattle.std.specs.Prelude.{◌≡◌, ◌++◌, map, OnOk};
ghost use Rattle.flattext.specs.SeenCalled.{called};
ghost use Rattle.flattext.specs.CallText.{atom_text, product_coefficient, product_atom, joined_by, takes_set, argument_text, arguments_text};

use crate::text::Called;
use flatplaces::labels::{put_joined, put_number};
use flatzinc::{Argument, Atom, Call, Product};
use models::code::Code;
use std::alloc::{AllocError, Global};

// Puts an atom behind a text: a variable by its name.
#[tactic(auto, unfolding(crate::specs::CallText::atom_text))]
fn put_atom(
    alloc: Global,
    out: &mut Vec<u8>,
    names: &[Called],
    atom: Atom,
) -> Result<(), AllocError>
    ensures { OnOk result (out.new.items ≡ out.old.items ++ atom_text (map called names.now) atom) }
{
    match atom {
        Atom::Whole(n) => put_number(alloc, out, n),
        Atom::Truth(true) => out.extend_from_slice(b"true"),
        Atom::Truth(false) => out.extend_from_slice(b"false"),
        Atom::Variable(v) => match names.get(v) {
            None => Ok(()),
            Some(called) => out.extend_from_slice(&called.name),
        },
    }
}

// Puts atoms behind a text, with commas between them.
fn put_atoms(
    alloc: Global,
    out: &mut Vec<u8>,
    names: &[Called],
    atoms: &[Atom],
) -> Result<(), AllocError>
    ensures { OnOk result (out.new.items ≡ out.old.items ++ joined_by (atom_text (map called names.now)) atoms.now) }
{
    for (at, atom) in atoms.iter().enumerate() {
        if 0 < at {
            out.push(b',')?;
        }
        put_atom(alloc, out, names, *atom)?;
    }
    Ok(())
}

// Puts the coefficients of a sum behind a text, with commas between them.
fn put_coefficients(
    alloc: Global,
    out: &mut Vec<u8>,
    products: &[Product],
) -> Result<(), AllocError>
    ensures { OnOk result (out.new.items ≡ out.old.items ++ joined_by product_coefficient products.now) }
{
    for (at, product) in products.iter().enumerate() {
        if 0 < at {
            out.push(b',')?;
        }
        put_number(alloc, out, product.coefficient)?;
    }
    Ok(())
}

// Puts the atoms of a sum behind a text, with commas between them.
fn put_products(
    alloc: Global,
    out: &mut Vec<u8>,
    names: &[Called],
    products: &[Product],
) -> Result<(), AllocError>
    ensures { OnOk result (out.new.items ≡ out.old.items ++ joined_by (product_atom (map called names.now)) products.now) }
{
    for (at, product) in products.iter().enumerate() {
        if 0 < at {
            out.push(b',')?;
        }
        put_atom(alloc, out, names, product.atom)?;
    }
    Ok(())
}

// Whether the numbers of a builtin are a set.
#[tactic(auto, unfolding(crate::specs::CallText::takes_set))]
fn takes_set(code: Code) -> bool
    ensures { result ≡ takes_set code }
{
    match code {
        Code::SetIn | Code::SetInReif => true,
        _ => false,
    }
}

// Puts an argument behind a text; its numbers stand in braces where they are a set.
#[tactic(auto, unfolding(crate::specs::CallText::argument_text))]
fn put_argument(
    alloc: Global,
    out: &mut Vec<u8>,
    names: &[Called],
    is_set: bool,
    argument: &Argument,
) -> Result<(), AllocError>
    ensures { OnOk result (out.new.items ≡ out.old.items ++ argument_text (map called names.now) is_set argument.now) }
{
    match argument {
        Argument::One(atom) => put_atom(alloc, out, names, *atom),
        Argument::Number(n) => put_number(alloc, out, *n),
        Argument::Numbers(numbers) => {
            out.push(if is_set { b'{' } else { b'[' })?;
            put_joined(alloc, out, numbers)?;
            Ok(out.push(if is_set { b'}' } else { b']' })?)
        }
        Argument::Many(atoms) => {
            out.push(b'[')?;
            put_atoms(alloc, out, names, atoms)?;
            Ok(out.push(b']')?)
        }
        Argument::Sum(products) => {
            out.push(b'[')?;
            put_coefficients(alloc, out, products)?;
            out.extend_from_slice(b"],[")?;
            put_products(alloc, out, names, products)?;
            Ok(out.push(b']')?)
        }
    }
}

// Puts a call's arguments behind a text, with commas between them.
#[tactic(auto, unfolding(crate::specs::CallText::arguments_text))]
pub fn put_arguments(
    alloc: Global,
    out: &mut Vec<u8>,
    names: &[Called],
    call: &Call,
) -> Result<(), AllocError>
    ensures { OnOk result (out.new.items ≡ out.old.items ++ arguments_text (map called names.now) call.now) }
{
    let is_set = takes_set(call.code);
    for (at, argument) in call.arguments.iter().enumerate() {
        if 0 < at {
            out.push(b',')?;
        }
        put_argument(alloc, out, names, is_set, argument)?;
    }
    Ok(())
}
