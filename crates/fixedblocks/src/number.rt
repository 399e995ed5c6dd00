// Blocks: products, absolute values, maxima and minima.
ghost use Rattle.std.specs.Prelude.{◌≡◌, [], ◌∷◌, ℕ, ◌<◌};
ghost use Rattle.integers.specs.Number.{min_z, max_z, +0};
ghost use Rattle.integers.specs.declared.Bounds.{Bounds};
ghost use Rattle.words.specs.Small.{Near};
ghost use Rattle.models.specs.Builtin.{int_times, int_abs};
ghost use Rattle.rules.specs.Rule.{rule, touching};
ghost use Rattle.laying.specs.Part.{bound, block_parts};
ghost use Rattle.laying.specs.Writes.{Writes};
ghost use Rattle.laying.specs.Sizes.{first_numbers};
ghost use Rattle.integers.specs.Bounds.{bounds_in};

use crate::rows::{three_terms, two_terms, where_bit};
use extremes::{end_products, zero_lower, zero_upper};
use integers::Bounds;
use laying::Writer;
use laying::term::Term;
use words::domain::{Domain, domain_of};
use words::kind::Kind;

// 7 int_times: the auxiliary is a×b, and c.
pub fn int_times(
    writer: &mut Writer,
    a: usize,
    b: usize,
    c: usize,
    domains: &[Domain],
    first: usize,
)
    ensures { Writes writer.old writer.new (block_parts first (rule (bounds_in domains.now) (int_times a b c))) }
{
    let ends = end_products(domain_of(domains, a), domain_of(domains, b));
    writer.bound(ends.lower, ends.upper);
    writer.times(first, a, b);
    two_terms(writer, Kind::Equal, first, -1, c, 0);
}

// The bounds of variable x, as two numbers. No From: `from_gives` is an equation alone, and that the upper bound is near 0 would be lost.
pub fn bounds_of(domains: &[Domain], x: usize) -> Bounds
    ensures value { result ≡ bounds_in domains.now x }
    ensures near { Near result.upper }
{
    let b = domain_of(domains, x);
    Bounds {
        lower: b.lower(),
        upper: b.upper(),
    }
}

// The bounds Z of these.
fn zero_bound(writer: &mut Writer, bounds: Bounds)
    ensures { Writes writer.old writer.new (bound (min_z +0 bounds.lower) (max_z +0 bounds.upper) ∷ []) }
{
    writer.bound(zero_lower(bounds.lower), zero_upper(bounds.upper));
}

// 8 int_abs: y is x where the bit is 0 and −x where it is 1, and not negative; the bit is 1 only where x is negative. Of the bounds of x the upper one alone has to be near 0, so they are no domain.
pub fn int_abs(writer: &mut Writer, x: usize, y: usize, bounds: Bounds, first: usize)
    requires { (first < first_numbers) × Near bounds.upper }
    ensures { (β : ℕ → Bounds) → β x ≡ bounds → Writes writer.old writer.new (block_parts first (rule β (int_abs x y))) }
{
    writer.bound(0, 1);
    zero_bound(writer, bounds);
    let z = first + 1;
    writer.times(z, first, x);
    three_terms(writer, Kind::Equal, y, -1, x, 2, z, 0);
    writer.row(Kind::AtMost, &[Term::new(-1, y)], 0);
    writer.only_negative(x, first, bounds.upper);
}

// 9 int_max and 29 int_min: x is at most y and u at most v; y is at most x where the auxiliary is 0, v at most u where it is 1, and there x is below y.
pub fn touching(
    writer: &mut Writer,
    x: usize,
    y: usize,
    u: usize,
    v: usize,
    domains: &[Domain],
    first: usize,
)
    ensures { Writes writer.old writer.new (block_parts first (touching (bounds_in domains.now) x y u v)) }
{
    writer.bound(0, 1);
    two_terms(writer, Kind::AtMost, x, -1, y, 0);
    two_terms(writer, Kind::AtMost, u, -1, v, 0);
    where_bit(writer, first, y, x, 0, domains, false);
    where_bit(writer, first, v, u, 0, domains, true);
    where_bit(writer, first, x, y, 1, domains, true);
}
