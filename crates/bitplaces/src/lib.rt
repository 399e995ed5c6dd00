// The places of the numbers of a row over bits that are not 0, and the entries of its square at these places alone.
// i, and x and k, stay parameters: no plainer as a range, since the definitions count places of a list.
#![tactic(auto)]

ghost use Rattle.std.specs.Prelude.{◌≡◌, ◌+◌, ◌<◌, ◌≤◌, nat_abs, length};
ghost use Rattle.words.specs.Limit as Limit;
ghost use Rattle.bitlines.specs.Sizes as Size;
ghost use Rattle.bitlines.specs.Dense.{peak};
ghost use Rattle.bitplaces.specs.Places.{PlacesFrom};
ghost use Rattle.bitplaces.specs.SquareAdded.{SquareAdded};

use bitlines::add_square;
use integers::test::one_if;
use integers::{equal, plus, times};
use words::list::at_or;

// Puts the places of a row's numbers that are not 0, from one on, to the front of a list; how many there are.
pub fn keep_places(row: &[i64], from: usize, places: &mut [u16]) -> usize
    requires { (from ≤ length row.now) × (length row.now ≤ length places.old) × (length row.now ≤ Limit.bits) }
    ensures places { PlacesFrom row.now from places.new 0 result }
    ensures few { result ≤ length row.now }
{
    let mut k = 0;
    for j in from..row.len() {
        places[k] = j as u16;
        k += one_if(!equal(at_or(row, j, 0), 0));
    }
    k
}

// Adds the entries of bit i and the bits after it in the square of a row over bits with the constant c to a line: those bits stand in a list from place x on.
pub fn add_square_at(
    line: &mut [i64],
    row: &[i64],
    c: i64,
    i: usize,
    places: &[u16],
    x: usize,
    k: usize,
)
    requires small { (peak row.now ≤ Limit.bit_numbers) × (nat_abs c ≤ Limit.bit_numbers) × (peak line.old < Size.sums) }
    requires sized { (length line.old ≡ length row.now) × (i < length row.now) × (length row.now ≤ Limit.bits) }
    requires places { PlacesFrom row.now (i + 1) places.now x k × (x ≤ k) × (k ≤ Limit.bits) × (k ≤ length places.now) }
    ensures { SquareAdded row.now c i line.old line.new }
{
    add_square(line, row, c, i, 1);
    let twice = times(2, row[i]);
    for y in x..k {
        let j = places[y] as usize;
        line[j] = plus(line[j], times(twice, row[j]));
    }
}
