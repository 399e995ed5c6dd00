// The numbers of a range that a list has room for.
ghost use Rattle.std.specs.Prelude.{◌≡◌, IfOk};
ghost use Rattle.integers.specs.Bounds.{◌to◌, width};
ghost use Rattle.flatrewriting.specs.Range.{short_width, NumbersOf};

use std::alloc::{AllocError, Global};
use words::limit;

// How many numbers there are from lo to hi, if a list has room for them.
#[tactic(auto, unfolding(integers::specs::Bounds::width))]
fn short_width(lo: i64, hi: i64) -> Option<usize>
    ensures { result ≡ short_width (width (lo to hi)) }
{
    if hi < lo {
        return Some(0);
    }
    let gap = hi.abs_diff(lo) as usize;
    if gap < limit::LIST_LENGTH {
        return Some(gap + 1);
    }
    None
}

// The numbers from lo to hi, if a list has room for them.
pub(crate) fn numbers_between(
    alloc: Global,
    lo: i64,
    hi: i64,
) -> Result<Option<Vec<i64>>, AllocError>
    ensures { IfOk result (NumbersOf (lo to hi)) }
{
    let Some(size) = short_width(lo, hi) else {
        return Ok(None);
    };
    let mut numbers = Vec::new(alloc);
    for k in 0..size {
        numbers.push(lo + k as i64)?;
    }
    Ok(Some(numbers))
}
