// Laws that the documents name and that no proof of the calls needs any more, over the types of today, in proofs/; and the entry of two bits in a square alone,
// which no call asks for.
#![tactic(auto)]

ghost use Rattle.std.specs.Prelude.{◌≡◌, ◌≤◌, nat_abs};
ghost use Rattle.integers.specs.Number.{◌⊕◌, ◌⊗◌, +2};
ghost use Rattle.words.specs.Limit as Limit;
ghost use Rattle.bitlines.specs.Dense.{peak};
ghost use Rattle.bitlines.specs.Line.{square_at};

use integers::{plus, times};
use words::list::at_or;

// a² + 2×c×a
fn on_diagonal(a: i64, c: i64) -> i64
    requires { (nat_abs a ≤ Limit.bit_numbers) × (nat_abs c ≤ Limit.bit_numbers) }
    ensures { result ≡ a ⊗ a ⊕ +2 ⊗ c ⊗ a }
{
    plus(times(a, a), times(times(2, c), a))
}

// 2×a×b
fn off_diagonal(a: i64, b: i64) -> i64
    requires { (nat_abs a ≤ Limit.bit_numbers) × (nat_abs b ≤ Limit.bit_numbers) }
    ensures { result ≡ +2 ⊗ a ⊗ b }
{
    times(times(2, a), b)
}

// The entry of bits i ≤ j in the square of a row over bits with the constant c.
pub fn square_at(row: &[i64], c: i64, i: usize, j: usize) -> i64
    requires { (peak row.now ≤ Limit.bit_numbers) × (nat_abs c ≤ Limit.bit_numbers) }
    ensures { result ≡ square_at row.now c i j }
{
    if i == j {
        return on_diagonal(at_or(row, i, 0), c);
    }
    off_diagonal(at_or(row, i, 0), at_or(row, j, 0))
}
