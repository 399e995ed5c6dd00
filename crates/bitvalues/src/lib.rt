// The values that bits read as.
#![tactic(auto)]

ghost use Rattle.std.specs.Prelude.{◌≡◌, ◌≤◌, map, pos, length, take, min, IfOk};
ghost use Rattle.integers.specs.Lists.{list_of};
ghost use Rattle.words.specs.Faults.{written_of};
ghost use Rattle.words.specs.Limit as Limit;
ghost use Rattle.words.specs.Overlay.{overlay};
ghost use Rattle.words.specs.Refusal.{accepted};
ghost use Rattle.rowsystems.specs.Reading.{read_rows};
ghost use Rattle.bitforms.specs.OverBits.{evaluate};
ghost use Rattle.bittables.specs.BitTables.{encoding_by, firsts};
ghost use Rattle.bitanswers.specs.ReadValues.{bit_values, bit_valued, read_values};
ghost use Rattle.bitsharing.specs.ReadShares.{ValuesShare};
ghost use Rattle.bitreading.specs.BitsGiven.{bits_in};
ghost use Rattle.bitvalues.specs.Answered.{Answered};

use bitreading::bits::Bits;
use bitreading::{SHORT, check_bits, list_bits, read_variable};
use bittables::table::{BitTable, BitVariable};
use rowreading::read_rows;
use words::domain::Domain;
use words::fault::{Fault, Refusal};
use words::limit::IN_ALL;
use words::list::put;

// Puts the values that the bits of n variables read as to the front of a list.
fn put_values(out: &mut [i32], bits: &Bits, table: &BitTable, n: usize)
    requires { n ≤ Limit.in_all }
    ensures { out.new ≡ overlay out.old 0 (list_of (λ v. evaluate (bits_in bits.now.bytes.now) (encoding_by table.now.domains.now (firsts table.now.bits.now) v)) n) }
{
    for v in 0..n {
        put(out, v, read_variable(bits, table, v) as i32);
    }
}

// Of accepted words, with lists of N elements: fixed memory.
#[inline(never)]
fn values_within<const N: usize>(
    ws: &[u32],
    bytes: &[u8],
    out: &mut [i32],
) -> Result<usize, Refusal>
    requires reads { read_rows ws.now ≡ accepted }
    requires room { (min (length ws.now) Limit.in_all ≤ N) × (N ≤ Limit.in_all) }
    ensures { Answered ws.now bytes.now out.old out.new (written_of result) }
{
    let mut domains = [Domain::new(0, 0); N];
    let mut places = [BitVariable { first: 0, count: 0 }; N];
    let listed = list_bits(ws, &mut domains, &mut places);
    check_bits(bytes, listed.all)?;
    let n = listed.variables;
    if out.len() < n {
        return Err(Refusal {
            fault: Fault::OutputTooShort,
            place: 0,
        });
    }
    let bits = Bits { bytes };
    let table = BitTable {
        domains: &domains,
        bits: &places,
    };
    put_values(out, &bits, &table, n);
    Ok(n)
}

// Of accepted words: short ones have short lists.
fn values_accepted(ws: &[u32], bytes: &[u8], out: &mut [i32]) -> Result<usize, Refusal>
    requires { read_rows ws.now ≡ accepted }
    ensures { Answered ws.now bytes.now out.old out.new (written_of result) }
{
    if ws.len() <= SHORT {
        return values_within::<SHORT>(ws, bytes, out);
    }
    values_within::<IN_ALL>(ws, bytes, out)
}

// Writes the values that the bits read as to the front of the output; a refusal changes nothing.
pub fn bit_values(ws: &[u32], bits: &[u8], out: &mut [i32]) -> Result<usize, Refusal>
    ensures answer { written_of result ≡ bit_values ws.now bits.now (length out.old) }
    ensures output { out.new ≡ bit_valued ws.now bits.now out.old }
    ensures room { IfOk result (λ n. n ≤ length out.new) }
    ensures front { IfOk result (λ n. take n out.new ≡ read_values ws.now (map pos bits.now)) }
    ensures shared { ValuesShare ws.now bits.now (written_of result) out.new }
{
    read_rows(ws)?;
    values_accepted(ws, bits, out)
}
