// Bits read by the lists of the variables' bits: their faults, the sums of their weights, the value that a variable's bits read as.
// That `first` and a width are no sums that wrap stays a clause: no plainer in a type, since each caller's number is a sum or a part of its own.
#![tactic(auto)]

ghost use Rattle.std.specs.Prelude.{◌≡◌, ◌*◌, ◌<◌, ◌≤◌, pos, nat_abs, length, min, replicate};
ghost use Rattle.integers.specs.Number.{+0};
ghost use Rattle.integers.specs.Bounds.{◌to◌};
ghost use Rattle.integers.specs.Terms.{sum};
ghost use Rattle.words.specs.Faults.{refusal_of};
ghost use Rattle.words.specs.Limit as Limit;
ghost use Rattle.bitrows.specs.Values.{largest_value};
ghost use Rattle.words.specs.Refusal.{accepted};
ghost use Rattle.rowsystems.specs.Reading.{read_rows};
ghost use Rattle.bitforms.specs.OverBits.{evaluate, weighted_bits};
ghost use Rattle.bitforms.specs.Weights.{weights};
ghost use Rattle.bitlines.specs.Sizes as Size;
ghost use Rattle.bittables.specs.BitTables.{encoding_by, firsts, counts};
ghost use Rattle.bitanswers.specs.BitFaults.{bit_fault_from};
ghost use Rattle.bitreading.specs.BitsGiven.{bits_in, bits_fault_by, BitsKept};

pub mod bits;

use crate::bits::Bits;
use bitchecks::count_bits;
use bittables::table::{BitTable, BitVariable, bits_at};
use bittables::{keep_bits, span_at};
use extremes::keep_bounds;
use integers::plus;
use words::domain::{Domain, domain_of};
use words::fault::{Fault, Refusal};
use words::limit;

// The sum of weight × bit, for each weight of a width, the bits numbered from `first` on.
// Its walk over the weights is apart from `add_weights`: a function of both, which takes a closure and its clauses, is no plainer than the four lines.
pub fn weigh(bits: &Bits, first: usize, width: usize) -> usize
    requires { (first < 4 * Size.sums) × (width < 4 * Size.sums) }
    ensures value { pos result ≡ sum (bits_in bits.now.bytes.now) (weighted_bits first (weights width)) }
    ensures size { result ≤ width }
{
    let mut total = 0;
    let mut at = first;
    let mut weight = 1;
    let mut left = width;
    // no count to go over: the loop ends by the width that is left
    while 0 < left {
        let w = weight.min(left);
        total += w * bits.at(at);
        left -= w;
        weight += weight;
        at += 1;
    }
    total
}

// The value that the bits of variable v read as.
pub fn read_variable(bits: &Bits, table: &BitTable, v: usize) -> i64
    ensures value { result ≡ evaluate (bits_in bits.now.bytes.now) (encoding_by table.now.domains.now (firsts table.now.bits.now) v) }
    ensures size { nat_abs result ≤ largest_value }
{
    plus(
        domain_of(table.domains, v).lower(),
        weigh(
            bits,
            bits_at(table.bits, v).first,
            span_at(table.domains, v),
        ) as i64,
    )
}

// The larger of the two values of a bit.
const ONE: u8 = 1;

// The first byte that is neither 0 nor 1, as a refusal.
fn check_bytes(bytes: &[u8]) -> Result<(), Refusal>
    ensures { refusal_of result ≡ bit_fault_from 0 bytes.now }
{
    for (place, &byte) in bytes.iter().enumerate() {
        if ONE < byte {
            return Err(Refusal {
                fault: Fault::NotABit,
                place,
            });
        }
    }
    Ok(())
}

// 23, 15 or 25, where there are to be n bits.
pub fn check_bits(bytes: &[u8], n: usize) -> Result<(), Refusal>
    ensures { refusal_of result ≡ bits_fault_by n bytes.now }
{
    if limit::BITS < n {
        return Err(Refusal {
            fault: Fault::TooManyBits,
            place: 0,
        });
    }
    if bytes.len() != n {
        return Err(Refusal {
            fault: Fault::WrongValueCount,
            place: 0,
        });
    }
    check_bytes(bytes)
}

// The words of a short row system: lists of as many elements have room for its variables, and are sooner cleared than those for the most.
pub const SHORT: usize = 1024;

// How many variables there are, the number of the first bit that no variable has, and how many bits there are.
#[derive(Clone, Copy, Debug, PartialEq, Eq)]
pub struct BitNumbers {
    pub variables: usize,
    pub start: usize,
    pub all: usize,
}

// Puts the bounds and the bits of the variables of accepted words to the front of two lists, which have none before and as many elements as there are
// words, or the most variables.
pub fn list_bits(ws: &[u32], domains: &mut [Domain], bits: &mut [BitVariable]) -> BitNumbers
    requires reads { read_rows ws.now ≡ accepted }
    requires room { min (length ws.now) Limit.in_all ≤ length domains.old }
    requires no_domains { domains.old ≡ replicate (length domains.old) (+0 to +0) }
    requires no_bits { (firsts bits.old ≡ replicate (length domains.old) 0) × (counts bits.old ≡ replicate (length domains.old) 0) }
    ensures { BitsKept ws.now domains.new bits.new result.variables result.start result.all }
{
    let variables = keep_bounds(ws, domains);
    let start = keep_bits(domains, variables, bits);
    BitNumbers {
        variables,
        start,
        all: count_bits(ws, domains, bits, start),
    }
}
