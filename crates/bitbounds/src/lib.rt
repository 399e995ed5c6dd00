// How far from 0 the entries of a form are at most, from its rows, before any of them is worked out.
// In row_bound the limit of `first` stays a clause: no plainer in a type, since the number is a sum of its own. A head, the words after it, the table and
// the first bit stay parameters: no plainer as a struct, which the walk would make anew at each row and each part take apart.
#![tactic(auto)]

ghost use Rattle.std.specs.Prelude.{◌≡◌, true, ◌<◌, ◌≤◌, length};
ghost use Rattle.integers.specs.Lists.{all};
ghost use Rattle.bitforms.specs.FormAnswer.{row_fits};
ghost use Rattle.bitlines.specs.Sizes as Size;
ghost use Rattle.bitlines.specs.Dense.{peak};
ghost use Rattle.bittables.specs.BitTables.{firsts, row_by};
ghost use Rattle.bittables.specs.Systems.{rows_of_system};
ghost use Rattle.bitbounds.specs.Within.{largest_bound, RowWithin, EntriesWithin};

use bitfilling::fill_row;
use bitrows::{own_bits, row_constant};
use bittables::table::{BitSystem, BitTable};
use rowreading::rows::starts_row;
use words::domain::domain_of;
use words::list::at_or;
use words::word::Word;

// The largest absolute value of a list.
fn peak_of(row: &[i64]) -> usize
    ensures { result ≡ peak row.now }
{
    let mut most = 0;
    for k in 0..row.len() {
        most = most.max(at_or(row, k, 0).unsigned_abs() as usize);
    }
    most
}

// How far from 0 the entries of the row or product with this head are at most, which has `own` bits of its own; the list is used for its row over bits.
fn row_bound(
    row: &mut [i64],
    head: Word,
    args: &[u32],
    table: &BitTable,
    first: usize,
    own: usize,
) -> usize
    requires near { (first < Size.farthest) × (own ≤ Size.own_bits) }
    requires fits { row_fits (length row.old) (row_by table.now.domains.now (firsts table.now.bits.now) first head args.now) ≡ true }
    requires owned { own ≡ (row_by table.now.domains.now (firsts table.now.bits.now) first head args.now).own }
    ensures { RowWithin (length row.old) (row_by table.now.domains.now (firsts table.now.bits.now) first head args.now) result × (result ≤ largest_bound) }
{
    fill_row(row, head, args, table, first);
    let c = row_constant(head, args, |v| domain_of(table.domains, v).lower());
    let most = peak_of(row).max(c.unsigned_abs() as usize);
    3 * (most * most) + 8 * own
}

// How far from 0 the entries of all rows and products are at most, where these fit.
// Its walk over the rows is a `for` of its own: the bodies of the walks differ.
pub fn entries_bound(system: &BitSystem, row: &mut [i64]) -> usize
    requires { all (row_fits (length row.old)) (rows_of_system system.now) ≡ true }
    ensures { EntriesWithin (length row.old) (rows_of_system system.now) result }
{
    let ws = system.words;
    let table = &system.table;
    let mut most = 0;
    let mut first = system.start;
    for (at, &head) in ws.iter().enumerate() {
        if starts_row(head) {
            let item = Word::from(head);
            let own = own_bits(item, &ws[at + 1..], table.domains, table.bits);
            most += row_bound(row, item, &ws[at + 1..], table, first, own);
            first += own;
        }
    }
    most
}
