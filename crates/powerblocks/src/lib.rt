// The block of int_pow: a chain of squares and products, by recursion on the exponent, which halves until it is 1.
#![tactic(auto)]

ghost use Rattle.std.specs.Prelude.{◌≡◌, ◌+◌, ◌*◌, ◌<◌, ◌≤◌};
ghost use Rattle.words.specs.Limit as Limit;
ghost use Rattle.models.specs.Builtin.{int_pow};
ghost use Rattle.rules.specs.Rule.{rule};
ghost use Rattle.laying.specs.Part.{block_parts};
ghost use Rattle.laying.specs.Writes.{WritesFitting};
ghost use Rattle.laying.specs.Sizes.{first_numbers};
ghost use Rattle.integers.specs.Bounds.{bounds_in};
ghost use Rattle.powerblocks.specs.Cut.{cut_bounds, cut_ranges};
ghost use Rattle.powerblocks.specs.Chained.{NextRange, RangesWritten, NextProduct, PowerWritten};

use extremes::end_products;
use integers::{Bounds, cut_to};
use laying::Writer;
use laying::term::Term;
use words::domain::{Domain, domain_of};
use words::kind::Kind;

// What bounds of a power are cut to: the first number past the range.
const PAST: i64 = 134217728;

// The variable that holds a power, and the next auxiliary.
#[derive(Clone, Copy, Debug, PartialEq, Eq)]
pub struct Multiplied {
    pub held: usize,
    pub next: usize,
}

// Bounds, cut to what is near 0.
fn cut_bounds(b: Bounds) -> Domain
    ensures { result ≡ cut_bounds b }
{
    Domain::new(cut_to(PAST, b.lower), cut_to(PAST, b.upper))
}

// The bounds of one more product: of a factor within bounds and the power.
// It and `next_product` stay two: one carries bounds and the other a variable and a number, and a trait of both, with its laws, is longer than they are.
fn next_range(writer: &mut Writer, power: Domain, factor: Domain) -> Domain
    ensures { NextRange writer.old writer.new power result factor }
{
    let range = cut_bounds(end_products(factor, power));
    writer.bound(range.lower(), range.upper());
    range
}

// The bounds of the products of a power from 1 on, of a variable within bounds; answers the bounds of the power. 02 prescribes the recursion.
// What k is stays in clauses, here and below: it is one number, which each call halves, so that a type for it would be made anew in each call, and be no plainer.
fn write_ranges(writer: &mut Writer, k: usize, range: Domain) -> Domain
    requires { 1 ≤ k }
    ensures { RangesWritten writer.old writer.new result (cut_ranges range k) }
{
    if k < 2 {
        return range;
    }
    let half = write_ranges(writer, k / 2, range);
    let square = next_range(writer, half, half);
    if k % 2 == 0 {
        return square;
    }
    next_range(writer, square, range)
}

// One more product: of a factor and the power.
fn next_product(writer: &mut Writer, power: Multiplied, factor: usize) -> Multiplied
    requires { power.next < 1000000000 }
    ensures { NextProduct writer.old writer.new power result factor }
{
    writer.times(power.next, factor, power.held);
    Multiplied {
        held: power.next,
        next: power.next + 1,
    }
}

// The products of a power from 1 on of the variable x, by the same recursion; their auxiliaries are numbered from `first` on.
// It and `write_ranges` stay two: one recursion of both would take the step as a closure over the writer with its clauses (`NextRange`, `NextProduct`), and be longer than both.
fn write_power(writer: &mut Writer, k: usize, x: usize, first: usize) -> Multiplied
    requires { (1 ≤ k) × (k ≤ Limit.exponent) × (first < first_numbers) }
    ensures { PowerWritten first writer.old writer.new result x k (20 * k) }
{
    if k < 2 {
        return Multiplied {
            held: x,
            next: first,
        };
    }
    let half = write_power(writer, k / 2, x, first);
    let square = next_product(writer, half, half.held);
    if k % 2 == 0 {
        return square;
    }
    next_product(writer, square, x)
}

// int_pow: z is 1 for k=0, else the last of the products.
pub fn int_pow(writer: &mut Writer, x: usize, k: usize, z: usize, domains: &[Domain], first: usize)
    requires { (first < first_numbers) × (k ≤ Limit.exponent) }
    ensures { WritesFitting writer.old writer.new (block_parts first (rule (bounds_in domains.now) (int_pow x k z))) }
{
    if k == 0 {
        writer.row(Kind::Equal, &[Term::new(1, z)], -1);
        return;
    }
    write_ranges(writer, k, domain_of(domains, x));
    let power = write_power(writer, k, x, first);
    writer.row(
        Kind::Equal,
        &[Term::new(1, power.held), Term::new(-1, z)],
        0,
    );
}
