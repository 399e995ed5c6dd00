// A row over bits as a list with a number for each bit, from the row's words; what it adds to a line of the form, and whether it adds anything.
// Limits of `first` and of `peak` stay clauses: no plainer in a type, since each caller's number is a sum or a part of its own. So does the limit of a
// number of terms: no plainer in a struct of the words and the number, since that k is one of its terms would be asked at each read in its place.
// A line and a row stay two lists: no plainer as a struct, which each call would lend again, and LineAndRow names i and m besides. i and m stay two
// parameters: no plainer as a range, since the definitions count m entries from i on.
// A head, the words after it, the table and the first bit stay parameters: no plainer as a struct, which each walk would make anew at each row and each
// part take apart. Kinds are tested one by one, as the definition of a row (row_of) does: of a head of another kind the words are those of a product.
#![tactic(auto)]

ghost use Rattle.std.specs.Prelude.{◌≡◌, true, false, ℕ, ◌+◌, ◌*◌, ◌<◌, ◌≤◌, nat_abs, length, replicate};
ghost use Rattle.integers.specs.Bounds.{bounds_in};
ghost use Rattle.integers.specs.Number.{neg, +0};
ghost use Rattle.words.specs.Limit as Limit;
ghost use Rattle.rowsystems.specs.OneWord.{row_of};
ghost use Rattle.bitforms.specs.Weights.{weights};
ghost use Rattle.bitforms.specs.OverBits.{scaled};
ghost use Rattle.bitforms.specs.FormAnswer.{row_fits};
ghost use Rattle.bitlines.specs.Sizes as Size;
ghost use Rattle.bitlines.specs.Dense.{add_terms, peak, Adds};
ghost use Rattle.bitlines.specs.Line.{square_terms};
ghost use Rattle.bittables.specs.BitTables.{firsts, counts, span_in, bits_of, row_over, row_by, BitCounts};
ghost use Rattle.bitrows.specs.Terms.{term_in, cross};
ghost use Rattle.bitfilling.specs.Filled.{dense, at_most_in, product_in};
ghost use Rattle.bitfilling.specs.Added.{LineAndRow, FilledBy, product_pairs, Added};
ghost use Rattle.bitfilling.specs.Idle.{NotAmong, NoBitOf, Idle, IdleRow};

use bitlines::{add_square, add_weights};
use bitrows::{add_pairs, add_products, add_terms, add_variable, slack_of, sum_terms};
use bittables::table::{BitTable, BitVariable, bits_at, count_at};
use bittables::{row_variable, signed_at, span_at};
use integers::{equal, opposite};
use words::domain::{Domain, domain_of};
use words::kind::Kind;
use words::word::Word;

// Makes every number of a list 0.
pub fn clear(row: &mut [i64])
    ensures { row.new ≡ replicate (length row.old) +0 }
{
    row.fill(0);
}

// Adds a variable v less the lower bound of f times.
fn add_less_lower(row: &mut [i64], table: &BitTable, v: usize, f: usize)
    requires { peak row.old < 2 * Size.sums }
    ensures { Adds (scaled (neg (bounds_in table.now.domains.now f).lower) (bits_of table.now.domains.now (firsts table.now.bits.now) v)) Size.largest_term row.old row.new }
{
    add_variable(row, table, v, opposite(domain_of(table.domains, f).lower()));
}

// Adds, for each bit of f and each of g, less the product of their weights to the bits from `first` on.
fn add_crossed(row: &mut [i64], domains: &[Domain], f: usize, g: usize, first: usize)
    requires { (first < Size.farthest) × (peak row.old < 4 * Size.sums) }
    ensures { row.new ≡ add_terms row.old (cross first (weights (span_in domains.now f)) (weights (span_in domains.now g))) }
{
    add_products(row, first, span_at(domains, f), span_at(domains, g));
}

// Adds the terms of a product: the result, less the first factor × the second.
fn add_product(row: &mut [i64], args: &[u32], table: &BitTable, first: usize)
    requires { (first < Size.farthest) × (peak row.old < Size.sums) }
    ensures { row.new ≡ add_terms row.old (row_over table.now.domains.now (firsts table.now.bits.now) first (product_in args.now)).whole.terms }
{
    let f = row_variable(args, 1);
    let g = row_variable(args, 2);
    add_variable(row, table, row_variable(args, 0), 1);
    add_less_lower(row, table, g, f);
    add_less_lower(row, table, f, g);
    add_crossed(row, table.domains, f, g, first)
}

// Adds the n terms of a row "sum ≤ 0" and its slack.
fn add_slacked(row: &mut [i64], args: &[u32], n: usize, table: &BitTable, first: usize)
    requires { (n ≤ Limit.terms) × (first < Size.farthest) × (peak row.old < Size.sums) }
    ensures { row.new ≡ add_terms row.old (row_over table.now.domains.now (firsts table.now.bits.now) first (at_most_in args.now n)).whole.terms }
{
    add_terms(row, args, n, table);
    add_weights(row, first, 1, slack_of(args, n, table.domains));
}

// Makes a list the row over bits of the row or product with this head, whose own bits are numbered from `first` on.
pub fn fill_row(row: &mut [i64], head: Word, args: &[u32], table: &BitTable, first: usize)
    requires { first < Size.farthest }
    ensures { row.new ≡ dense (length row.old) (row_by table.now.domains.now (firsts table.now.bits.now) first head args.now).whole.terms }
{
    clear(row);
    if head.is(Kind::AtMost) {
        add_slacked(row, args, sum_terms(head), table, first);
        return;
    }
    if head.is(Kind::Equal) {
        add_terms(row, args, sum_terms(head), table);
        return;
    }
    add_product(row, args, table, first)
}

// Adds to the line of bit i what the products of bits of a product add.
#[tactic(auto, unfolding(crate::specs::Added::product_pairs))]
fn add_product_pairs(line: &mut [i64], args: &[u32], table: &BitTable, first: usize, i: usize)
    requires { BitCounts table.now.domains.now (counts table.now.bits.now) × (first < Size.farthest) × (peak line.old < 2 * Size.sums) }
    ensures { Adds (product_pairs (firsts table.now.bits.now) (counts table.now.bits.now) args.now first i) (8 * Size.own_bits) line.old line.new }
{
    let f = row_variable(args, 1);
    let g = row_variable(args, 2);
    let m = count_at(table.domains, table.bits, f);
    let n = count_at(table.domains, table.bits, g);
    let u = bits_at(table.bits, f).first;
    let v = bits_at(table.bits, g).first;
    add_pairs(line, u, m, v, n, first, i)
}

// Adds to the line of bit i the entries of the square of a row over bits with the constant c; none where the row does not have the bit.
fn add_whole(line: &mut [i64], row: &[i64], c: i64, i: usize, m: usize)
    requires small { (peak row.now ≤ Limit.bit_numbers) × (nat_abs c ≤ Limit.bit_numbers) × (i + m ≤ Limit.bits) × (peak line.old < Size.sums) }
    requires inside { (0 < m) × (i + m ≤ length line.old) × (i + m ≤ length row.now) }
    ensures { Adds (square_terms row.now c i m) (m * Size.largest_entry) line.old line.new }
{
    if !equal(row[i], 0) {
        add_square(line, row, c, i, m);
    }
}

// Adds to the line of bit i what the row or product with this head adds, by its row over bits and the constant of that.
pub fn add_row(
    line: &mut [i64],
    row: &[i64],
    c: i64,
    head: Word,
    args: &[u32],
    table: &BitTable,
    first: usize,
    i: usize,
    m: usize,
)
    requires counted { BitCounts table.now.domains.now (counts table.now.bits.now) }
    requires near { first < Size.farthest }
    requires sized { LineAndRow (i + m) line.old row.now × (0 < m) }
    requires small { peak line.old < Size.sums }
    requires fits { row_fits (i + m) (row_by table.now.domains.now (firsts table.now.bits.now) first head args.now) ≡ true }
    requires filled { FilledBy (row_by table.now.domains.now (firsts table.now.bits.now) first head args.now) row.now c }
    ensures { Added (row_by table.now.domains.now (firsts table.now.bits.now) first head args.now) i line.old line.new }
{
    add_whole(line, row, c, i, m);
    if head.is(Kind::AtMost) {
        return;
    }
    if head.is(Kind::Equal) {
        return;
    }
    add_product_pairs(line, args, table, first, i)
}

// Whether one of the h bits from i on may be one of n bits from `first` on.
fn overlap(first: usize, n: usize, i: usize, h: usize) -> bool
    ensures { result ≡ false → (q : ℕ) → q < h → NotAmong first n (i + q) }
{
    if first <= i {
        return i - first < n;
    }
    first - i < h
}

// Whether it may be a bit of variable v.
fn holds_variable(bits: &[BitVariable], v: usize, i: usize, h: usize) -> bool
    ensures { result ≡ false → (q : ℕ) → q < h → NoBitOf (firsts bits.now) (counts bits.now) (i + q) v }
{
    let b = bits_at(bits, v);
    overlap(b.first, b.count, i, h)
}

// Whether it may be a bit of the variable of term k, with a coefficient that is not 0.
fn holds_term(args: &[u32], k: usize, bits: &[BitVariable], i: usize, h: usize) -> bool
    requires { k ≤ Limit.terms }
    ensures { result ≡ false → (q : ℕ) → q < h → Idle (NoBitOf (firsts bits.now) (counts bits.now) (i + q)) (term_in args.now k) }
{
    if signed_at(args, 2 * k + 1) == 0 {
        return false;
    }
    holds_variable(bits, row_variable(args, 2 * k), i, h)
}

// Whether that is so of one of n terms.
fn holds_terms(args: &[u32], n: usize, bits: &[BitVariable], i: usize, h: usize) -> bool
    requires { n ≤ Limit.terms }
    ensures { result ≡ false → (q : ℕ) → q < h → IdleRow (NoBitOf (firsts bits.now) (counts bits.now) (i + q)) (at_most_in args.now n) }
{
    for k in 0..n {
        if holds_term(args, k, bits, i, h) {
            return true;
        }
    }
    false
}

// Whether it may be a bit of a variable of a product.
fn holds_product(args: &[u32], bits: &[BitVariable], i: usize, h: usize) -> bool
    ensures { result ≡ false → (q : ℕ) → q < h → IdleRow (NoBitOf (firsts bits.now) (counts bits.now) (i + q)) (product_in args.now) }
{
    if holds_variable(bits, row_variable(args, 0), i, h) {
        return true;
    }
    if holds_variable(bits, row_variable(args, 1), i, h) {
        return true;
    }
    holds_variable(bits, row_variable(args, 2), i, h)
}

// Whether the row or product with this head, and `own` bits of its own from `first` on, may have entries in the lines of the h bits from i on.
pub fn holds_bits(
    head: Word,
    args: &[u32],
    bits: &[BitVariable],
    first: usize,
    own: usize,
    i: usize,
    h: usize,
) -> bool
    ensures { result ≡ false → (q : ℕ) → q < h → NotAmong first own (i + q) × IdleRow (NoBitOf (firsts bits.now) (counts bits.now) (i + q)) (row_of head args.now) }
{
    if overlap(first, own, i, h) {
        return true;
    }
    if head.is(Kind::AtMost) {
        return holds_terms(args, sum_terms(head), bits, i, h);
    }
    if head.is(Kind::Equal) {
        return holds_terms(args, sum_terms(head), bits, i, h);
    }
    holds_product(args, bits, i, h)
}

// Whether the row or product with this head may have entries in the line of bit i. Of a row its coefficient says it.
pub fn holds_line(
    head: Word,
    args: &[u32],
    bits: &[BitVariable],
    first: usize,
    own: usize,
    i: usize,
) -> bool
    ensures { result ≡ false → NotAmong first own i × IdleRow (NoBitOf (firsts bits.now) (counts bits.now) i) (row_of head args.now) }
{
    if head.is(Kind::AtMost) {
        return true;
    }
    if head.is(Kind::Equal) {
        return true;
    }
    holds_bits(head, args, bits, first, own, i, 1)
}
