// The place of a constraint without a path: the one that all its variables come from, where MiniZinc introduced them.
ghost use Rattle.std.specs.Prelude.{◌≡◌, map, option_map};
ghost use Rattle.flatzinc.specs.Seen.{value, item as item_of};
ghost use Rattle.flatplaces.specs.Seen.{place};
ghost use Rattle.flatplaces.specs.SeenCommon.{common_of, places};
ghost use Rattle.flatplaces.specs.Common.{unseen, same_place, with_place, with_atom, with_atoms, with_values, with_item, common_place};

use crate::places::Place;
use flatzinc::{Atom, Item, Value};

// The places of variables so far: of none, all the same, others or none.
#[derive(Clone, Copy, Debug)]
enum Common<'p> {
    Unseen,
    Same(&'p Place),
    Apart,
}

// Whether two places are the same.
fn same_place(a: &Place, b: &Place) -> bool
    ensures { result ≡ same_place (place a.now) (place b.now) }
{
    a.line == b.line && a.file.as_slice() == b.file.as_slice()
}

// With the place of a variable more.
fn with_place<'p>(common: Common<'p>, next: Option<&'p Place>) -> Common<'p>
    ensures { common_of result ≡ with_place (common_of common.entry) (option_map (λ p. place p.now) next.entry) }
{
    match (common, next) {
        (Common::Unseen, Some(place)) => Common::Same(place),
        (Common::Same(place), Some(other)) if same_place(place, other) => Common::Same(place),
        _ => Common::Apart,
    }
}

// With the place of an atom more.
fn with_atom<'p>(common: Common<'p>, introduced: &'p [Option<Place>], atom: Atom) -> Common<'p>
    ensures { common_of result ≡ with_atom (places introduced.now) (common_of common.entry) atom }
{
    match atom {
        Atom::Variable(v) => match introduced.get(v) {
            Some(Some(place)) => with_place(common, Some(place)),
            _ => with_place(common, None),
        },
        _ => common,
    }
}

// With the places of atoms.
fn with_atoms<'p>(common: Common<'p>, introduced: &'p [Option<Place>], atoms: &[Atom]) -> Common<'p>
    ensures { common_of result ≡ with_atoms (places introduced.now) (common_of common.entry) atoms.now }
{
    let mut found = common;
    for atom in atoms {
        found = with_atom(found, introduced, *atom);
    }
    found
}

// With the places of arguments.
fn with_values<'p>(
    common: Common<'p>,
    introduced: &'p [Option<Place>],
    values: &[Value],
) -> Common<'p>
    ensures { common_of result ≡ with_values (places introduced.now) (common_of common.entry) (map value values.now) }
{
    let mut found = common;
    for value in values {
        found = match value {
            Value::One(atom) => with_atom(found, introduced, *atom),
            Value::Many(atoms) => with_atoms(found, introduced, atoms),
            _ => found,
        };
    }
    found
}

// The places of a constraint's variables.
fn of_item<'p>(introduced: &'p [Option<Place>], item: &Item) -> Common<'p>
    ensures { common_of result ≡ with_item (places introduced.now) unseen (item_of item.now) }
{
    let none = Common::Unseen;
    match item {
        Item::Coded(_, values) => with_values(none, introduced, values),
        Item::BoolEq(a, b) | Item::BoolLe(a, b) | Item::BoolLt(a, b) | Item::BoolUnequal(a, b) =>
            with_atom(with_atom(none, introduced, *a), introduced, *b),
        Item::ArrayBoolOr(atoms, r) => {
            with_atom(with_atoms(none, introduced, atoms), introduced, *r)
        }
        Item::SetInRange(x, _, _) => with_atom(none, introduced, *x),
    }
}

// The place of a constraint without a path, by the places of the introduced variables, none for the others.
#[tactic(auto, unfolding(crate::specs::Common::common_place))]
pub fn common_place<'p>(introduced: &'p [Option<Place>], item: &Item) -> Option<&'p Place>
    ensures { option_map (λ p. place p.now) result ≡ common_place (places introduced.now) (item_of item.now) }
{
    match of_item(introduced, item) {
        Common::Same(place) => Some(place),
        _ => None,
    }
}
