// The lines of the form, several at a time in one walk over the rows, then checked and written.
// A band is a list of lines with n numbers each, n the length of a row over bits: line q of a band from bit i on is that of bit i + q.
// A band and a row stay two lists: no plainer as a struct, which each call would lend again, and BandAndRow names n and h besides. i and h stay two
// parameters: no plainer as a range, since the definitions count h lines from bit i on. n stays one where lines are put: the clauses name it as the number
// of bits, and that it is the length of the row is what BandAndRow says.
// In add_pairs_to_line the limits of `first` and of `peak` stay clauses: no plainer in a type, since each number is a sum or a part of its own. A head, the words
// after it, the table and the first bit stay parameters: no plainer as a struct, which the walk would make anew at each row and each part take apart.
// Fitting stays a clause: no plainer in a type, since it names the system and the number of bits.
// `out` and `at` stay two parameters: no plainer as a page, since the next place is all that a caller goes on with.
#![tactic(auto)]

ghost use Rattle.std.specs.Prelude.{◌≡◌, true, false, ◌&&◌, [], ℕ, ◌+◌, ◌-◌, ◌*◌, ◌<◌, ◌≤◌, nat_abs, length, get_or};
ghost use Rattle.integers.specs.Number.{+0};
ghost use Rattle.words.specs.Limit as Limit;
ghost use Rattle.bitforms.specs.FormAnswer.{row_fits, all_in_range};
ghost use Rattle.bitforms.specs.Matrix.{line_entries, entries_from};
ghost use Rattle.bitlines.specs.Sizes as Size;
ghost use Rattle.bitlines.specs.Dense.{peak, Adds};
ghost use Rattle.bitlines.specs.Line.{entries_words};
ghost use Rattle.words.specs.LaidAt.{LaidAt};
ghost use Rattle.bittables.specs.BitTables.{firsts, counts, row_by, BitCounts};
ghost use Rattle.bittables.specs.Systems.{rows_of_system};
ghost use Rattle.bitplaces.specs.Places.{PlacesFrom};
ghost use Rattle.bitplaces.specs.SquareAdded.{SquareAdded};
ghost use Rattle.bitfilling.specs.Filled.{dense, product_in};
ghost use Rattle.bitfilling.specs.Added.{product_pairs, Added};
ghost use Rattle.bitfilling.specs.Idle.{NotAmong, NoBitOf, IdleRow};
ghost use Rattle.bitwriting.specs.PairsAdded.{PairsAdded};
ghost use Rattle.rowsystems.specs.OneWord.{row_of};
ghost use Rattle.bittaking.specs.Taking.{LineTaken};
ghost use Rattle.bitwriting.specs.Bands.{line_at, BandAndRow, EachLine, Held};
ghost use Rattle.bitwriting.specs.Lined.{LineOf, Fitting, entry_taken};
ghost use Rattle.bitwriting.specs.EntriesPut.{EntriesPut};

use bitfilling::{clear, fill_row, holds_bits};
use bitlines::put_line;
use bitplaces::{add_square_at, keep_places};
use bitrows::{add_pairs, own_bits, row_constant};
use bittables::row_variable;
use bittables::table::{BitSystem, BitTable, BitVariable, bits_at, count_at};
use bittaking::{Taken, take_line};
use integers::equal;
use integers::test::one_if;
use rowreading::rows::starts_row;
use words::domain::domain_of;
use words::kind::Kind;
use words::list::at_or;
use words::word::Word;
use words::{in_range, limit};

// How many numbers a band has room for.
pub const BAND: usize = 30720;

// How many lines of n numbers each a band has room for, of n that are wanted.
pub fn lines_of(n: usize) -> usize
    requires { n ≤ Limit.bits }
    ensures room { result * n ≤ 30720 }
    ensures some { 0 < n → 0 < result }
{
    if n == 0 {
        return 0;
    }
    n.min(BAND / n)
}

// Adds to the line of bit i what the products of bits of a product add.
#[tactic(auto, unfolding(bitfilling::specs::Added::product_pairs))]
fn add_product_pairs(line: &mut [i64], args: &[u32], table: &BitTable, first: usize, i: usize)
    requires { BitCounts table.now.domains.now (counts table.now.bits.now) × (first < Size.farthest) × (peak line.old < 2 * Size.sums) }
    ensures { Adds (product_pairs (firsts table.now.bits.now) (counts table.now.bits.now) args.now first i) (8 * Size.own_bits) line.old line.new }
{
    let f = row_variable(args, 1);
    let g = row_variable(args, 2);
    let m = count_at(table.domains, table.bits, f);
    let n = count_at(table.domains, table.bits, g);
    let u = bits_at(table.bits, f).first;
    let v = bits_at(table.bits, g).first;
    add_pairs(line, u, m, v, n, first, i)
}

// Whether bit i may be one of n bits from `first` on.
fn is_among(first: usize, n: usize, i: usize) -> bool
    ensures { result ≡ false → NotAmong first n i }
{
    if first <= i {
        return i - first < n;
    }
    false
}

// Whether it may be a bit of variable v.
fn is_bit_of(bits: &[BitVariable], v: usize, i: usize) -> bool
    ensures { result ≡ false → NoBitOf (firsts bits.now) (counts bits.now) i v }
{
    let b = bits_at(bits, v);
    is_among(b.first, b.count, i)
}

// Whether it may be a bit of a variable of a product, or one of its own.
fn is_bit_of_product(args: &[u32], bits: &[BitVariable], first: usize, own: usize, i: usize) -> bool
    ensures { result ≡ false → NotAmong first own i × IdleRow (NoBitOf (firsts bits.now) (counts bits.now) i) (product_in args.now) }
{
    if is_among(first, own, i) {
        return true;
    }
    if is_bit_of(bits, row_variable(args, 1), i) {
        return true;
    }
    if is_bit_of(bits, row_variable(args, 2), i) {
        return true;
    }
    is_bit_of(bits, row_variable(args, 0), i)
}

// The same, where one of these bits may be bit i, or the row over bits has it.
fn add_pairs_to_line(
    line: &mut [i64],
    row: &[i64],
    head: Word,
    args: &[u32],
    table: &BitTable,
    first: usize,
    own: usize,
    i: usize,
)
    requires counted { BitCounts table.now.domains.now (counts table.now.bits.now) }
    requires near { first < Size.farthest }
    requires small { (peak line.old < 2 * Size.sums) × (peak row.now ≤ Limit.bit_numbers) × (i < length row.now) }
    requires product { row_of head args.now ≡ product_in args.now }
    requires filled { row.now ≡ dense (length row.now) (row_by table.now.domains.now (firsts table.now.bits.now) first head args.now).whole.terms }
    requires owned { own ≡ (row_by table.now.domains.now (firsts table.now.bits.now) first head args.now).own }
    ensures { PairsAdded (row_by table.now.domains.now (firsts table.now.bits.now) first head args.now) i line.old line.new }
{
    if !equal(row[i], 0) {
        add_product_pairs(line, args, table, first, i);
        return;
    }
    if is_bit_of_product(args, table.bits, first, own, i) {
        add_product_pairs(line, args, table, first, i);
    }
}

// The constant over bits of the row or product with this head.
fn constant_over(head: Word, args: &[u32], table: &BitTable) -> i64
    ensures { (first : ℕ) → result ≡ (row_by table.now.domains.now (firsts table.now.bits.now) first head args.now).whole.constant }
{
    row_constant(head, args, |v| domain_of(table.domains, v).lower())
}

// Adds the square of a row over bits with the constant c to the h lines of a band from bit i on; its bits from i on are at the first k places of a list.
fn add_at_places(
    band: &mut [i64],
    row: &[i64],
    c: i64,
    places: &[u16],
    k: usize,
    i: usize,
    h: usize,
)
    requires sized { BandAndRow (length row.now) h band.old row.now × (i + h ≤ length row.now) }
    requires small { (peak row.now ≤ Limit.bit_numbers) × (nat_abs c ≤ Limit.bit_numbers) × ((q : ℕ) → q < h → peak (line_at (length row.now) q band.old) < Size.sums) }
    requires places { PlacesFrom row.now i places.now 0 k × (k ≤ length row.now) × (k ≤ length places.now) }
    ensures { EachLine (λ q. SquareAdded row.now c (i + q)) (length row.now) h band.old band.new }
{
    let n = row.len();
    for x in 0..k {
        let p = places[x] as usize;
        if p < i + h {
            let q = p - i;
            add_square_at(&mut band[q * n..q * n + n], row, c, p, places, x + 1, k);
        }
    }
}

// The same, with a list of its own.
fn add_squares(band: &mut [i64], row: &[i64], c: i64, i: usize, h: usize)
    requires sized { BandAndRow (length row.now) h band.old row.now × (i + h ≤ length row.now) }
    requires small { (peak row.now ≤ Limit.bit_numbers) × (nat_abs c ≤ Limit.bit_numbers) × ((q : ℕ) → q < h → peak (line_at (length row.now) q band.old) < Size.sums) }
    ensures { EachLine (λ q. SquareAdded row.now c (i + q)) (length row.now) h band.old band.new }
{
    let mut places = [0u16; limit::BITS];
    let k = keep_places(row, i, &mut places);
    add_at_places(band, row, c, &places, k, i, h);
}

// Adds to the h lines of a band from bit i on what the products of bits of a product add.
fn add_pairs_to_lines(
    band: &mut [i64],
    row: &[i64],
    head: Word,
    args: &[u32],
    table: &BitTable,
    first: usize,
    own: usize,
    i: usize,
    h: usize,
)
    requires counted { BitCounts table.now.domains.now (counts table.now.bits.now) }
    requires near { first < Size.farthest }
    requires sized { BandAndRow (length row.now) h band.old row.now × (i + h ≤ length row.now) }
    requires small { (peak row.now ≤ Limit.bit_numbers) × ((q : ℕ) → q < h → peak (line_at (length row.now) q band.old) < 2 * Size.sums) }
    requires product { row_of head args.now ≡ product_in args.now }
    requires filled { row.now ≡ dense (length row.now) (row_by table.now.domains.now (firsts table.now.bits.now) first head args.now).whole.terms }
    requires owned { own ≡ (row_by table.now.domains.now (firsts table.now.bits.now) first head args.now).own }
    ensures { EachLine (λ q. PairsAdded (row_by table.now.domains.now (firsts table.now.bits.now) first head args.now) (i + q)) (length row.now) h band.old band.new }
{
    let n = row.len();
    for q in 0..h {
        add_pairs_to_line(
            &mut band[q * n..q * n + n],
            row,
            head,
            args,
            table,
            first,
            own,
            i + q,
        );
    }
}

// Adds to the h lines of a band from bit i on what the row or product with this head adds; the list is used for its row over bits.
fn add_to_lines(
    band: &mut [i64],
    row: &mut [i64],
    head: Word,
    args: &[u32],
    table: &BitTable,
    first: usize,
    own: usize,
    i: usize,
    h: usize,
)
    requires counted { BitCounts table.now.domains.now (counts table.now.bits.now) }
    requires near { first < Size.farthest }
    requires sized { BandAndRow (length row.old) h band.old row.old × (i + h ≤ length row.old) }
    requires small { (q : ℕ) → q < h → peak (line_at (length row.old) q band.old) < Size.sums }
    requires fits { row_fits (length row.old) (row_by table.now.domains.now (firsts table.now.bits.now) first head args.now) ≡ true }
    requires owned { own ≡ (row_by table.now.domains.now (firsts table.now.bits.now) first head args.now).own }
    ensures { EachLine (λ q. Added (row_by table.now.domains.now (firsts table.now.bits.now) first head args.now) (i + q)) (length row.old) h band.old band.new }
{
    fill_row(row, head, args, table, first);
    let c = constant_over(head, args, table);
    if head.is(Kind::AtMost) {
        add_squares(band, row, c, i, h);
        return;
    }
    if head.is(Kind::Equal) {
        add_squares(band, row, c, i, h);
        return;
    }
    add_squares(band, row, c, i, h);
    add_pairs_to_lines(band, row, head, args, table, first, own, i, h)
}

// The same, where one of these bits may be a bit of it; the number of the next row's first bit.
fn add_to_band(
    band: &mut [i64],
    row: &mut [i64],
    head: Word,
    args: &[u32],
    table: &BitTable,
    first: usize,
    i: usize,
    h: usize,
) -> usize
    requires counted { BitCounts table.now.domains.now (counts table.now.bits.now) }
    requires near { first < Size.farthest }
    requires sized { BandAndRow (length row.old) h band.old row.old × (i + h ≤ length row.old) }
    requires small { (q : ℕ) → q < h → peak (line_at (length row.old) q band.old) < Size.sums }
    requires fits { row_fits (length row.old) (row_by table.now.domains.now (firsts table.now.bits.now) first head args.now) ≡ true }
    ensures added { EachLine (λ q. Added (row_by table.now.domains.now (firsts table.now.bits.now) first head args.now) (i + q)) (length row.old) h band.old band.new }
    ensures next { (result ≡ first + (row_by table.now.domains.now (firsts table.now.bits.now) first head args.now).own) × (result ≤ first + Size.own_bits) }
{
    let own = own_bits(head, args, table.domains, table.bits);
    if holds_bits(head, args, table.bits, first, own, i, h) {
        add_to_lines(band, row, head, args, table, first, own, i, h);
    }
    first + own
}

// Makes the first h lines of a band those of the bits from i on.
// No plainer by one walk for all: the bodies of the walks over rows differ, and what they share is the `for` and the test.
fn fill_band(band: &mut [i64], row: &mut [i64], system: &BitSystem, i: usize, h: usize)
    requires fitting { Fitting system.now (length row.old) }
    requires sized { BandAndRow (length row.old) h band.old row.old × (i + h ≤ length row.old) × (0 < h) }
    ensures { (length band.new ≡ length band.old) × ((q : ℕ) → q < h → LineOf (rows_of_system system.now) (i + q) (line_at (length row.old) q band.new)) }
{
    clear(band);
    let ws = system.words;
    let table = &system.table;
    let mut first = system.start;
    for (at, &head) in ws.iter().enumerate() {
        if starts_row(head) {
            let item = Word::from(head);
            first = add_to_band(band, row, item, &ws[at + 1..], table, first, i, h);
        }
    }
}

// Takes the first h lines of a band from bit i on, of n numbers each.
fn take_band(band: &mut [i64], taken: &Taken, n: usize, i: usize, h: usize)
    requires { (h * n ≤ length band.old) × (i + h ≤ n) × (n ≤ Limit.bits) }
    ensures { EachLine (λ q. LineTaken taken.now.times taken.now.added.now (i + q) (n - (i + q))) n h band.old band.new }
{
    for q in 0..h {
        take_line(&mut band[q * n..q * n + n], taken, i + q, n - (i + q));
    }
}

// Makes the first lines of a band, at most so many, those of the bits from i on, taken; the bit after them.
pub fn make_band(
    band: &mut [i64],
    row: &mut [i64],
    system: &BitSystem,
    taken: &Taken,
    i: usize,
    lines: usize,
) -> usize
    requires fitting { Fitting system.now (length row.old) }
    requires sized { BandAndRow (length row.old) lines band.old row.old × (i < length row.old) × (0 < lines) }
    ensures held { Held taken.now system.now (length row.old) i result band.new }
    ensures more { (i < result) × (result ≤ length row.old) × (length row.old ≤ i + lines → result ≡ length row.old) }
    ensures same { length band.new ≡ length band.old }
{
    let n = row.len();
    let h = lines.min(n - i);
    fill_band(band, row, system, i, h);
    take_band(band, taken, n, i, h);
    i + h
}

// Whether both of two tests hold: the second is made in any case, so that nothing branches on the first.
fn both(a: bool, b: bool) -> bool
    ensures { result ≡ (a && b) }
{
    a && b
}

// The place after the words that the entries of a line from bit i on would have from a place on; none if one is outside the range.
fn count_one(at: usize, line: &[i64], i: usize) -> Option<usize>
    requires { (i < length line.now) × (length line.now ≤ Limit.bits) × (at + 3072 < Size.farthest) }
    ensures { EntriesPut (line_entries (λ j. get_or line.now j +0) i (length line.now - i)) [] at [] result }
{
    let mut to = at;
    let mut fit = true;
    for j in i..line.len() {
        let v = at_or(line, j, 0);
        to += 3 * one_if(!equal(v, 0));
        fit = both(fit, in_range(v));
    }
    if !fit {
        return None;
    }
    Some(to)
}

// The bits whose lines stand in a band: from one on and before another one.
#[derive(Clone, Copy)]
struct Lines {
    start: usize,
    end: usize,
}

// Makes a band anew from bit i on where it does not hold its line.
fn with_line(
    band: &mut [i64],
    row: &mut [i64],
    system: &BitSystem,
    taken: &Taken,
    i: usize,
    lines: usize,
    held: Lines,
) -> Lines
    requires fitting { Fitting system.now (length row.old) }
    requires sized { BandAndRow (length row.old) lines band.old row.old × (i < length row.old) × (held.end ≤ i → 0 < lines) }
    requires held { Held taken.now system.now (length row.old) held.start held.end band.old × (held.start ≤ i) × (held.end ≤ length row.old) }
    ensures held { Held taken.now system.now (length row.old) result.start result.end band.new }
    ensures here { (result.start ≤ i) × (i < result.end) × (result.end ≤ length row.old) }
    ensures kept { i < held.end → (result.end ≡ held.end) × (band.new ≡ band.old) }
    ensures same { length band.new ≡ length band.old }
{
    if i < held.end {
        return held;
    }
    let end = make_band(band, row, system, taken, i, lines);
    Lines { start: i, end }
}

// The place after the words of all lines from a place on; none at an entry outside the range. The band has room for so many lines, and those of the bits
// before `ready` stand in it.
pub fn count_lines(
    at: usize,
    n: usize,
    band: &mut [i64],
    row: &mut [i64],
    system: &BitSystem,
    taken: &Taken,
    lines: usize,
    ready: usize,
) -> Option<usize>
    requires fitting { Fitting system.now n }
    requires sized { BandAndRow n lines band.old row.old × (0 < n → 0 < lines) × (ready ≤ n) × (at ≤ 1) }
    requires held { Held taken.now system.now n 0 ready band.old }
    ensures put { EntriesPut (entries_from (entry_taken taken.now system.now) 0 n) [] at [] result }
    ensures whole { ready ≡ n → band.new ≡ band.old }
{
    let mut to = at;
    let mut held = Lines {
        start: 0,
        end: ready,
    };
    for i in 0..n {
        held = with_line(band, row, system, taken, i, lines, held);
        let q = i - held.start;
        to = count_one(to, &band[q * n..q * n + n], i)?;
    }
    Some(to)
}

// Writes all lines from a place on, as far as they fit into the output; the place after them. All entries are in the range.
pub fn write_lines(
    out: &mut [u32],
    at: usize,
    n: usize,
    band: &mut [i64],
    row: &mut [i64],
    system: &BitSystem,
    taken: &Taken,
    lines: usize,
    ready: usize,
) -> usize
    requires fitting { Fitting system.now n }
    requires sized { BandAndRow n lines band.old row.old × (0 < n → 0 < lines) × (ready ≤ n) × (at ≤ 1) }
    requires held { Held taken.now system.now n 0 ready band.old }
    requires in_range { all_in_range (entries_from (entry_taken taken.now system.now) 0 n) ≡ true }
    ensures { LaidAt out.old at (entries_words (entries_from (entry_taken taken.now system.now) 0 n)) out.new result }
{
    let mut to = at;
    let mut held = Lines {
        start: 0,
        end: ready,
    };
    for i in 0..n {
        held = with_line(band, row, system, taken, i, lines, held);
        let q = i - held.start;
        to = put_line(out, to, &band[q * n..q * n + n], i, n - i);
    }
    to
}
