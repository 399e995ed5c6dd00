// How many bits a row system needs, and whether its rows over bits fit: faults 23 and 24.
// In check_row the limit of `first` stays a clause: no plainer in a type, since the number is a sum of its own. A head, the words after it, the table and
// the first bit stay parameters: no plainer as a struct, which the walk would make anew at each row and each part take apart.
#![tactic(auto)]

ghost use Rattle.std.specs.Prelude.{◌≡◌, List, ℕ, ◌<◌, ◌≤◌, pos, length};
ghost use Rattle.std.specs.Int.Signed.{le_z};
ghost use Rattle.std.specs.List.{list_all};
ghost use Rattle.integers.specs.Number.{abs_z};
ghost use Rattle.words.specs.Limit as Limit;
ghost use Rattle.bitforms.specs.BitRow.{bits_with};
ghost use Rattle.bitlines.specs.Sizes as Size;
ghost use Rattle.bittables.specs.BitTables.{firsts, counts, row_by, rows_by, BitCounts};
ghost use Rattle.bittables.specs.Systems.{rows_of_system};
ghost use Rattle.bitchecks.specs.Checked.{row_checked, rows_checked};

use bitfilling::fill_row;
use bitrows::{own_bits, row_constant};
use bittables::table::{BitSystem, BitTable, BitVariable};
use integers::{plus, times};
use rowreading::rows::starts_row;
use words::domain::{Domain, domain_of};
use words::limit;
use words::word::Word;

// How many bits there are, after `start` bits of variables.
// No plainer by one walk for all: the bodies of the walks over rows differ, and what they share is the `for` and the test.
pub fn count_bits(ws: &[u32], domains: &[Domain], bits: &[BitVariable], start: usize) -> usize
    requires { (length ws.now ≤ Limit.row_words) × BitCounts domains.now (counts bits.now) × (start ≤ Size.all_variable_bits) }
    ensures { (firsts : List ℕ) → result ≡ bits_with start (rows_by domains.now firsts start ws.now) }
{
    let mut first = start;
    for (at, &head) in ws.iter().enumerate() {
        if starts_row(head) {
            first += own_bits(Word::from(head), &ws[at + 1..], domains, bits);
        }
    }
    first
}

// Whether a number of a row over bits is within its limit.
fn within_limit(v: i64) -> bool
    ensures { result ≡ le_z (abs_z v) (pos Limit.bit_numbers) }
{
    v.unsigned_abs() <= limit::BIT_NUMBERS as u64
}

// Whether all numbers of a row over bits are.
fn all_within(row: &[i64]) -> bool
    ensures { result ≡ list_all (λ v. le_z (abs_z v) (pos Limit.bit_numbers)) row.now }
{
    row.iter().all(|&v| within_limit(v))
}

// The square of the constant of the row or product with this head, if it fits; the list is used for its row over bits.
fn check_row(
    row: &mut [i64],
    head: Word,
    args: &[u32],
    table: &BitTable,
    first: usize,
) -> Option<i64>
    requires { first < Size.farthest }
    ensures { result ≡ row_checked (length row.old) (row_by table.now.domains.now (firsts table.now.bits.now) first head args.now) }
{
    let c = row_constant(head, args, |v| domain_of(table.domains, v).lower());
    if !within_limit(c) {
        return None;
    }
    fill_row(row, head, args, table, first);
    if !all_within(row) {
        return None;
    }
    Some(times(c, c))
}

// The sum of these over all rows and products, if they all fit.
// Its walk over the rows is a `for` of its own: the bodies of the walks differ.
pub fn check_rows(system: &BitSystem, row: &mut [i64]) -> Option<i64>
    ensures { result ≡ rows_checked (length row.old) (rows_of_system system.now) }
{
    let ws = system.words;
    let table = &system.table;
    let mut constant: i64 = 0;
    let mut first = system.start;
    for (at, &head) in ws.iter().enumerate() {
        if starts_row(head) {
            let item = Word::from(head);
            let square = check_row(row, item, &ws[at + 1..], table, first)?;
            constant = plus(constant, square);
            first += own_bits(item, &ws[at + 1..], table.domains, table.bits);
        }
    }
    Some(constant)
}
