// Blocks: comparisons of two variables.
ghost use Rattle.std.specs.Prelude.{ℕ, ◌≤◌, nat_abs};
ghost use Rattle.integers.specs.declared.Bounds.{Bounds};
ghost use Rattle.models.specs.Builtin.{int_eq, int_ne};
ghost use Rattle.rules.specs.Rule.{rule, order_reified};
ghost use Rattle.laying.specs.Part.{block_parts};
ghost use Rattle.laying.specs.Writes.{Writes};
ghost use Rattle.integers.specs.Bounds.{bounds_in};

use crate::rows::{two_terms, where_bit};
use laying::Writer;
use words::domain::Domain;
use words::kind::Kind;

// 1 int_eq: a − b is 0.
pub fn int_eq(writer: &mut Writer, a: usize, b: usize)
    ensures { (β : ℕ → Bounds) (first : ℕ) → Writes writer.old writer.new (block_parts first (rule β (int_eq a b))) }
{
    two_terms(writer, Kind::Equal, a, -1, b, 0);
}

// 4 int_ne: a < b where the auxiliary is 0, b < a where it is 1.
pub fn int_ne(writer: &mut Writer, a: usize, b: usize, domains: &[Domain], first: usize)
    ensures { Writes writer.old writer.new (block_parts first (rule (bounds_in domains.now) (int_ne a b))) }
{
    writer.bound(0, 1);
    where_bit(writer, first, a, b, 1, domains, false);
    where_bit(writer, first, b, a, 1, domains, true);
}

// 5 int_le_reif, with 0 and 1, and 30 int_lt_reif, with 1 and 0: a − b + d ≤ 0 where r is 1, b − a + e ≤ 0 where it is 0.
pub fn order_reif(
    writer: &mut Writer,
    a: usize,
    b: usize,
    r: usize,
    d: i64,
    e: i64,
    domains: &[Domain],
)
    requires { (nat_abs d ≤ 1) × (nat_abs e ≤ 1) }
    ensures { (first : ℕ) → Writes writer.old writer.new (block_parts first (order_reified (bounds_in domains.now) d e a b r)) }
{
    where_bit(writer, r, a, b, d, domains, true);
    where_bit(writer, r, b, a, e, domains, false);
}
