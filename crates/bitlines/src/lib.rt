// A row over bits as a list with a number for each bit: terms are added to it, like bits added.
// Clauses on `peak` stay clauses: no plainer in a type, since each function leaves another part of a machine number's range. i and m stay two parameters,
// and the limit of i + m a clause: no plainer as a range, since the definitions count m entries from i on. `out` and `at` stay two parameters: no plainer
// as a page, since the next place is all that a caller goes on with.
#![tactic(auto)]

ghost use Rattle.std.specs.Prelude.{◌≡◌, [], ◌∷◌, ◌+◌, ◌*◌, ◌<◌, ◌≤◌, nat_abs, length, get_or};
ghost use Rattle.integers.specs.Number.{◌⊕◌, ◌⊗◌, +0, +2};
ghost use Rattle.words.specs.Limit as Limit;
ghost use Rattle.words.specs.LaidAt.{LaidAt};
ghost use Rattle.bitforms.specs.Weights.{weights};
ghost use Rattle.bitforms.specs.OverBits.{weighted_bits, scaled};
ghost use Rattle.bitforms.specs.Matrix.{entry_at, line_entries};
ghost use Rattle.bitlines.specs.Sizes as Size;
ghost use Rattle.bitlines.specs.Dense.{bump, add_terms, peak, Adds};
ghost use Rattle.bitlines.specs.Line.{square_terms, on_terms, pair_terms, pair_of, entries_words};

use integers::{plus, times};
use words::kind::Kind;
use words::list::{at_or, put};
use words::word::Word;

// Adds k to a number of the list, if the place is one of its places.
// No plainer by `put`: the place would be tested twice, to read and to write, in the innermost step of the form.
pub fn add_at(row: &mut [i64], i: usize, k: i64)
    requires { peak row.old + nat_abs k < 8 * Size.sums }
    ensures { row.new ≡ bump row.old i k }
{
    if i < row.len() {
        row[i] = plus(row[i], k);
    }
}

// Adds k × weight to the bits from `first` on, for each weight of a width; the number of the next bit.
pub fn add_weights(row: &mut [i64], first: usize, k: i64, width: usize) -> usize
    requires { (first < 4 * Size.sums) × (width < 4 * Size.sums) × (peak row.old + nat_abs k * width < 8 * Size.sums) }
    ensures { (result ≡ first + length (weights width)) × (row.new ≡ add_terms row.old (scaled k (weighted_bits first (weights width)))) }
{
    let mut at = first;
    let mut weight = 1;
    let mut left = width;
    // no count to go over: the loop ends by the width that is left
    while 0 < left {
        let w = weight.min(left);
        add_at(row, at, times(k, w as i64));
        left -= w;
        weight += weight;
        at += 1;
    }
    at
}

// a² + 2×c×a
fn on_diagonal(a: i64, c: i64) -> i64
    requires { (nat_abs a ≤ Limit.bit_numbers) × (nat_abs c ≤ Limit.bit_numbers) }
    ensures { result ≡ a ⊗ a ⊕ +2 ⊗ c ⊗ a }
{
    plus(times(a, a), times(times(2, c), a))
}

// Adds the entries of bit i and the m bits from i on in the square of a row over bits to a line.
pub fn add_square(line: &mut [i64], row: &[i64], c: i64, i: usize, m: usize)
    requires small { (peak row.now ≤ Limit.bit_numbers) × (nat_abs c ≤ Limit.bit_numbers) × (i + m ≤ Limit.bits) × (peak line.old < 4 * Size.sums) }
    requires inside { (0 < m) × (i + m ≤ length line.old) × (i + m ≤ length row.now) }
    ensures { Adds (square_terms row.now c i m) (m * Size.largest_entry) line.old line.new }
{
    let a = row[i];
    add_at(line, i, on_diagonal(a, c));
    let twice = times(2, a);
    for d in 1..m {
        line[i + d] = plus(line[i + d], times(twice, row[i + d]));
    }
}

// Adds c to the line of bit i at the larger of bits a and b, if i is the lesser one.
pub fn add_on(line: &mut [i64], c: i64, a: usize, b: usize, i: usize)
    requires { peak line.old + nat_abs c < 8 * Size.sums }
    ensures { line.new ≡ add_terms line.old (on_terms c a b i) }
{
    if a.min(b) == i {
        add_at(line, a.max(b), c);
    }
}

// Adds what bits u and v and the bit t of their product add to the line of bit i.
pub fn add_pair(line: &mut [i64], u: usize, v: usize, t: usize, i: usize)
    requires { peak line.old < 4 * Size.sums }
    ensures { line.new ≡ add_terms line.old (pair_terms (pair_of u v t) i) }
{
    add_on(line, 3, t, t, i);
    add_on(line, 1, u, v, i);
    add_on(line, -2, u, t, i);
    add_on(line, -2, v, t, i);
}

// Writes the words of an entry, none for 0; the next place.
pub fn put_entry(out: &mut [u32], at: usize, i: usize, j: usize, v: i64) -> usize
    requires { at < Size.farthest }
    ensures { LaidAt out.old at (entries_words (entry_at i j v ∷ [])) out.new result }
{
    if v == 0 {
        return at;
    }
    put(out, at, Word::new(Kind::Variable, i).bits());
    put(out, at + 1, Word::new(Kind::Variable, j).bits());
    put(out, at + 2, Word::of_number(Kind::Number, v).bits());
    at + 3
}

// Writes the entries of bit i and the m bits from i on; the next place.
pub fn put_line(out: &mut [u32], at: usize, line: &[i64], i: usize, m: usize) -> usize
    requires { (at + 3 * m < Size.farthest) × (i + m ≤ Limit.bits) }
    ensures { LaidAt out.old at (entries_words (line_entries (λ j. get_or line.now j +0) i m)) out.new result }
{
    let mut next = at;
    for d in 0..m {
        next = put_entry(out, next, i, i + d, at_or(line, i + d, 0));
    }
    next
}
