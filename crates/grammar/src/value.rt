// The numbers of a text.
#![tactic(auto)]

ghost use Rattle.std.specs.Prelude.{◌≡◌, ◌≤◌, Some, None};
ghost use Rattle.integers.specs.Choice.{◌if◌else◌};
ghost use Rattle.words.specs.Word.{in_range};
ghost use Rattle.grammar.specs.Value.{digits_from, value_of};
ghost use Rattle.grammar.specs.Machine.{cap};

use words::in_range;

// 1 more than the largest number of the range.
const ABOVE: usize = 134217728;

// The number that digits spell, or 134,217,728 where it is above the range. No Option: a sum that is cut at ABOVE is one `min`, and `within_range` tells
// it from the numbers of the range.
fn decimal_of(digits: &[u8]) -> usize
    ensures value { result ≡ cap (digits_from 0 digits.now) }
    ensures size { result ≤ 134217728 }
{
    let mut n = 0;
    for &b in digits {
        n = (n * 10 + b.saturating_sub(b'0') as usize).min(ABOVE);
    }
    n
}

// A number, if it is in the range.
fn within_range(z: i64) -> Option<i64>
    ensures { result ≡ (Some z if in_range z else None) }
{
    if in_range(z) {
        return Some(z);
    }
    None
}

// The number that a token spells, if it is in the range. By hand: `parse` of the library takes a str, and the bytes of a text would be tested for
// UTF-8 first.
pub(crate) fn value_of(spelling: &[u8]) -> Option<i64>
    ensures { let z = value_of spelling.now in result ≡ (Some z if in_range z else None) }
{
    if let Some(digits) = spelling.strip_prefix(b"-") {
        return within_range(-(decimal_of(digits) as i64));
    }
    within_range(decimal_of(spelling) as i64)
}
