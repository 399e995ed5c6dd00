// The names that the model has for the elements of an output array.
ghost use Rattle.std.specs.Prelude.{◌≡◌, ◌++◌, option_map, IfOk, OnOk};
ghost use Rattle.std.specs.Fmt.{signed_decimal};
ghost use Rattle.flatplaces.specs.Label.{size, index_at, indices, joined, element_name};

use crate::annotations::IndexSet;
use std::alloc::{AllocError, Global};

// An array of more index sets, or with a longer name, has no names for its elements: its text would be much longer than its FlatZinc.
const MOST_SETS: usize = 16;

const LONGEST_NAME: usize = 1024;

// Puts a number behind a text.
pub fn put_number(alloc: Global, out: &mut Vec<u8>, n: i64) -> Result<(), AllocError>
    ensures { OnOk result (out.new.items ≡ out.old.items ++ signed_decimal n) }
{
    let digits = format!(in alloc; "{n}")?;
    out.extend_from_slice(digits.as_bytes())
}

// How many indices a set has.
fn size(set: &IndexSet) -> usize
    ensures { result ≡ size set.now }
{
    (set.upper.abs_diff(set.lower) as usize).saturating_add(1)
}

// The index at an offset from the lower end of a set.
fn index_at(set: &IndexSet, offset: usize) -> i64
    ensures { result ≡ index_at set.now offset }
{
    set.lower.saturating_add_unsigned(offset as u64)
}

// The indices of the k-th element, the last one first.
fn indices(alloc: Global, sets: &[IndexSet], k: usize) -> Result<Option<Vec<i64>>, AllocError>
    ensures { IfOk result (λ o. option_map (λ v. v.items) o ≡ indices sets.now k) }
{
    let mut found = Vec::new(alloc);
    let mut left = k;
    for set in sets {
        let size = size(set);
        found.push(index_at(set, left % size))?;
        left = left / size;
    }
    if left == 0 { Ok(Some(found)) } else { Ok(None) }
}

// Puts numbers behind a text, each but the first behind a comma.
pub fn put_joined(alloc: Global, out: &mut Vec<u8>, numbers: &[i64]) -> Result<(), AllocError>
    ensures { OnOk result (out.new.items ≡ out.old.items ++ joined numbers.now) }
{
    for (at, n) in numbers.iter().enumerate() {
        if 0 < at {
            out.push(b',')?;
        }
        put_number(alloc, out, *n)?;
    }
    Ok(())
}

// The model's name of an array's k-th element, NAME[INDEX,..]; the index sets stand with the last one first.
pub fn element_name(
    alloc: Global,
    name: &[u8],
    sets: &[IndexSet],
    k: usize,
) -> Result<Option<Vec<u8>>, AllocError>
    ensures { IfOk result (λ o. option_map (λ v. v.items) o ≡ element_name name.now sets.now k) }
{
    if sets.is_empty() || MOST_SETS < sets.len() || LONGEST_NAME < name.len() {
        return Ok(None);
    }
    match indices(alloc, sets, k)? {
        None => Ok(None),
        Some(mut found) => {
            found.reverse();
            let mut out = name.to_vec(alloc)?;
            out.push(b'[')?;
            put_joined(alloc, &mut out, &found)?;
            out.push(b']')?;
            Ok(Some(out))
        }
    }
}
