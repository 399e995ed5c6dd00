// Whether the atoms that stand where a Boolean is due are Boolean.
ghost use Rattle.std.specs.Prelude.{◌≡◌};
ghost use Rattle.std.specs.List.{list_all};
ghost use Rattle.flattening.specs.Booleans.{boolean_atom, boolean_given, boolean_item, is_bools};

use flatzinc::{Atom, Declared, Domain, Item};

pub(crate) fn is_bools(domain: &Domain) -> bool
    ensures { result ≡ is_bools domain.now }
{
    match domain {
        Domain::Bools => true,
        Domain::Between(_, _) | Domain::Among(_) => false,
    }
}

fn boolean_atom(variables: &[Declared], atom: Atom) -> bool
    ensures { result ≡ boolean_atom variables.now atom }
{
    match atom {
        Atom::Whole(_) => false,
        Atom::Truth(_) => true,
        Atom::Variable(v) => v < variables.len() && is_bools(&variables[v].domain),
    }
}

fn boolean_atoms(variables: &[Declared], atoms: &[Atom]) -> bool
    ensures { result ≡ list_all (boolean_atom variables.now) atoms.now }
{
    atoms.iter().all(|atom| boolean_atom(variables, *atom))
}

fn boolean_item(variables: &[Declared], item: &Item) -> bool
    ensures { result ≡ boolean_item variables.now item.now }
{
    match item {
        Item::Coded(_, _) | Item::SetInRange(_, _, _) => true,
        Item::BoolEq(a, b) | Item::BoolLe(a, b) | Item::BoolLt(a, b) | Item::BoolUnequal(a, b) =>
            boolean_atom(variables, *a) && boolean_atom(variables, *b),
        Item::ArrayBoolOr(atoms, r) => {
            boolean_atoms(variables, atoms) && boolean_atom(variables, *r)
        }
    }
}

fn boolean_given(variables: &[Declared], declared: &Declared) -> bool
    ensures { result ≡ boolean_given variables.now declared.now }
{
    match declared.given {
        None => true,
        Some(atom) => !is_bools(&declared.domain) || boolean_atom(variables, atom),
    }
}

pub fn boolean_items(variables: &[Declared], items: &[Item]) -> bool
    ensures { result ≡ list_all (boolean_item variables.now) items.now }
{
    items.iter().all(|item| boolean_item(variables, item))
}

pub fn boolean_givens(variables: &[Declared]) -> bool
    ensures { result ≡ list_all (boolean_given variables.now) variables.now }
{
    variables
        .iter()
        .all(|declared| boolean_given(variables, declared))
}
