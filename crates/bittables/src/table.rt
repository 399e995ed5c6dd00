// The variables of a row system over bits: their bounds, the first bit of each, and how many it has.
#![tactic(auto)]

ghost use Rattle.std.specs.Prelude.{◌≡◌, ◌≤◌, length, get_or};
ghost use Rattle.words.specs.Limit as Limit;
ghost use Rattle.bitforms.specs.Weights.{weights};
ghost use Rattle.bitlines.specs.Sizes as Size;
ghost use Rattle.bittables.specs.BitTables.{span_in, firsts, counts, NearFirsts, BitCounts};

use crate::span_at;
use words::domain::Domain;
use words::list::at_or;

// The bits of a variable: the number of the first one, and how many there are.
#[derive(Clone, Copy, Debug, PartialEq, Eq)]
pub struct BitVariable {
    pub first: usize,
    pub count: usize,
}

// The bounds and the bits of the variables, which are numbered from near 0 on. That their counts are right (BitCounts) stays a clause: what fills a row
// (add_variable, add_terms, fill_row) asks only the first bits, and what counts bits (own_bits, count_bits) only the counts; a type that says both would
// ask more of each.
#[derive(Clone, Copy)]
pub struct BitTable<'a> {
    pub domains: &'a [Domain],
    pub bits: &'a [BitVariable],
    ghost near: { NearFirsts (firsts bits.now) },
}

// The words of a row system, its variables over bits, and the number of the first bit that no variable has.
#[derive(Clone, Copy)]
pub struct BitSystem<'a> {
    pub words: &'a [u32],
    pub table: BitTable<'a>,
    pub start: usize,
    ghost few_words: { length words.now ≤ Limit.row_words },
    ghost counted: { BitCounts table.domains.now (counts table.bits.now) },
    ghost near_start: { start ≤ Size.all_variable_bits },
}

// The words of a row system with its variables over bits. Tried as a literal in a caller, and the proof did not close: there the borrow checker meets a
// table of another lifetime.
pub fn system_of<'a>(words: &'a [u32], table: BitTable<'a>, start: usize) -> BitSystem<'a>
    requires { (length words.now ≤ Limit.row_words) × BitCounts table.domains.now (counts table.bits.now) × (start ≤ Size.all_variable_bits) }
    ensures { (result.words.now ≡ words.now) × (result.table.domains.now ≡ table.entry.domains.now) × (result.table.bits.now ≡ table.entry.bits.now) × (result.start ≡ start) }
{
    BitSystem {
        words,
        table,
        start,
    }
}

// The bits of variable v, none past the last one.
#[tactic(auto, using(crate::proofs::Bits::first_at, crate::proofs::Bits::count_at))]
pub fn bits_at(bits: &[BitVariable], v: usize) -> BitVariable
    ensures first { result.first ≡ get_or (firsts bits.now) v 0 }
    ensures count { result.count ≡ get_or (counts bits.now) v 0 }
{
    at_or(bits, v, BitVariable { first: 0, count: 0 })
}

// How many bits variable v has. They are few by its width, which is read for the proof alone: tried without, and the proof did not close, since that a
// list's bounds are near 0 comes with one that is read.
pub fn count_at(domains: &[Domain], bits: &[BitVariable], v: usize) -> usize
    requires { BitCounts domains.now (counts bits.now) }
    ensures value { result ≡ length (weights (span_in domains.now v)) }
    ensures few { result ≤ Size.most_weights }
{
    let _ = span_at(domains, v);
    bits_at(bits, v).count
}
