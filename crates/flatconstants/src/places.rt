// The place of each whole number in a table of constants.
ghost use Rattle.std.specs.Prelude.{◌≡◌, ℤ, OnOk, Some, None};
ghost use Rattle.std.specs.Ordering.{int_cmp};
ghost use Rattle.std.specs.BTreeMap as btree;
ghost use Rattle.integers.specs.Choice.{◌if◌else◌};
ghost use Rattle.integers.specs.Number.{◌≟◌};

use std::alloc::AllocError;
use std::collections::BTreeMap;

// The place of a number.
pub(crate) fn place_in(places: &BTreeMap<i64, usize>, number: i64) -> Option<usize>
    ensures { result ≡ btree.get int_cmp places.now number }
{
    places.get(&number).copied()
}

// Gives a number a place.
pub(crate) fn put_place(
    places: &mut BTreeMap<i64, usize>,
    number: i64,
    place: usize,
) -> Result<(), AllocError>
    ensures { OnOk result ((q : ℤ) → btree.get int_cmp places.new q ≡ (Some place if q ≟ number else btree.get int_cmp places.old q)) }
{
    places.insert(number, place)?;
    Ok(())
}

// No number has a place.
pub(crate) fn no_places(alloc: std::alloc::Global) -> BTreeMap<i64, usize>
    ensures { (q : ℤ) → btree.get int_cmp result q ≡ None }
{
    BTreeMap::new(alloc)
}
