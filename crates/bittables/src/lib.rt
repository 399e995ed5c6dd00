// The bits of the variables as a list: the number of the first bit, how many bits; how it is made; and the words of a row by their places.
#![tactic(auto)]

ghost use Rattle.std.specs.Prelude.{◌≡◌, ◌*◌, ◌<◌, ◌≤◌, length};
ghost use Rattle.integers.specs.Bounds.{bounds_in};
ghost use Rattle.integers.specs.Lists.{list_of};
ghost use Rattle.words.specs.Limit as Limit;
ghost use Rattle.words.specs.Small.{Near};
ghost use Rattle.rowsystems.specs.RowSystem.{variable_at, number_at};
ghost use Rattle.bitforms.specs.Weights.{weights};
ghost use Rattle.bitlines.specs.Sizes as Size;
ghost use Rattle.bittables.specs.BitTables.{span_in, firsts, counts};
ghost use Rattle.bittables.specs.KeptBits.{KeptBits};

pub mod table;

use crate::table::BitVariable;
use arguments::count_of;
use bitlines::add_weights;
use integers::minus;
use words::domain::{Domain, domain_of};
use words::list::put;
use words::word::Word;

// How many weights a width has: they are added to no bits.
pub fn weight_count(width: usize) -> usize
    requires { width < 4 * Size.sums }
    ensures value { result ≡ length (weights width) }
    ensures few { result ≤ Size.most_weights }
{
    let mut nothing = [0i64; 0];
    add_weights(&mut nothing, 0, 0, width)
}

// The width of a variable.
#[tactic(auto, unfolding(crate::specs::BitTables::span_in))]
pub fn span_at(domains: &[Domain], v: usize) -> usize
    ensures value { result ≡ span_in domains.now v }
    ensures size { result ≤ Size.widest }
{
    let b = domain_of(domains, v);
    count_of(minus(b.upper(), b.lower()))
}

// The variable at place i of the words after a head.
// A term's variable and coefficient are read apart, and by no function of a term: no plainer, since `term_at` of bitrows asks the coefficient alone and
// `terms_sum` the variable.
#[tactic(auto, unfolding(rowsystems::specs::RowSystem::variable_at))]
pub fn row_variable(args: &[u32], i: usize) -> usize
    ensures { result ≡ variable_at args.now i }
{
    Word::at(args, i).payload()
}

// The number there.
#[tactic(auto, unfolding(rowsystems::specs::RowSystem::number_at))]
pub fn signed_at(args: &[u32], i: usize) -> i64
    ensures value { result ≡ number_at args.now i }
    ensures near { Near result }
{
    Word::at(args, i).signed()
}

// Puts the bits of each of n variables to the front of a list; how many bits they have.
// n stays a parameter: no plainer by the list's length, since the promise is of n variables, with the bounds 0 and 0 past the list's end.
pub fn keep_bits(domains: &[Domain], n: usize, bits: &mut [BitVariable]) -> usize
    requires { n ≤ Limit.in_all }
    ensures { KeptBits (list_of (bounds_in domains.now) n) (firsts bits.old) (counts bits.old) (firsts bits.new) (counts bits.new) result }
{
    let mut at = 0;
    for v in 0..n {
        let count = weight_count(span_at(domains, v));
        put(bits, v, BitVariable { first: at, count });
        at += count;
    }
    at
}
