// Blocks: Boolean variables.
ghost use Rattle.std.specs.Prelude.{[], ◌∷◌, ℕ, ◌+◌, ◌<◌};
ghost use Rattle.integers.specs.Number.{+0, +1};
ghost use Rattle.integers.specs.declared.Bounds.{Bounds};
ghost use Rattle.models.specs.Builtin.{bool_and, bool_or, bool_xor, bool_eq_reif, bool_le_reif, bool_lt_reif};
ghost use Rattle.rules.specs.Rule.{rule};
ghost use Rattle.laying.specs.Part.{bound, times, block_parts};
ghost use Rattle.laying.specs.Writes.{Writes};
ghost use Rattle.laying.specs.Sizes.{first_numbers};

use crate::rows::{three_terms, two_terms};
use laying::Writer;
use laying::term::Term;
use words::kind::Kind;

// 18 bool_and: r is at most a and at most b, and at least a + b − 1.
pub fn bool_and(writer: &mut Writer, a: usize, b: usize, r: usize)
    ensures { (β : ℕ → Bounds) (first : ℕ) → Writes writer.old writer.new (block_parts first (rule β (bool_and a b r))) }
{
    two_terms(writer, Kind::AtMost, r, -1, a, 0);
    two_terms(writer, Kind::AtMost, r, -1, b, 0);
    three_terms(writer, Kind::AtMost, a, 1, b, -1, r, -1);
}

// 19 bool_or: r is at most a + b, and 2×r at least that.
pub fn bool_or(writer: &mut Writer, a: usize, b: usize, r: usize)
    ensures { (β : ℕ → Bounds) (first : ℕ) → Writes writer.old writer.new (block_parts first (rule β (bool_or a b r))) }
{
    three_terms(writer, Kind::AtMost, r, -1, a, -1, b, 0);
    three_terms(writer, Kind::AtMost, a, 1, b, -2, r, 0);
}

// 20 and 34: x is r×a and y is r×b.
fn two_products(writer: &mut Writer, a: usize, b: usize, r: usize, first: usize)
    requires { first < first_numbers }
    ensures { Writes writer.old writer.new (bound +0 +1 ∷ bound +0 +1 ∷ times first r a ∷ times (first + 1) r b ∷ []) }
{
    writer.bound(0, 1);
    writer.bound(0, 1);
    writer.times(first, r, a);
    writer.times(first + 1, r, b);
}

// 20 bool_xor: x is r×a and y is r×b; a − x is b − y, and x + y is r.
pub fn bool_xor(writer: &mut Writer, a: usize, b: usize, r: usize, first: usize)
    requires { first < first_numbers }
    ensures { (β : ℕ → Bounds) → Writes writer.old writer.new (block_parts first (rule β (bool_xor a b r))) }
{
    let x = first;
    let y = first + 1;
    two_products(writer, a, b, r, first);
    writer.row(
        Kind::Equal,
        &[
            Term::new(1, a),
            Term::new(-1, x),
            Term::new(-1, b),
            Term::new(1, y),
        ],
        0,
    );
    three_terms(writer, Kind::Equal, x, 1, y, -1, r, 0);
}

// 34 bool_eq_reif: x is r×a and y is r×b; x is y, and 1 + x + y is r + a + b.
pub fn bool_eq_reif(writer: &mut Writer, a: usize, b: usize, r: usize, first: usize)
    requires { first < first_numbers }
    ensures { (β : ℕ → Bounds) → Writes writer.old writer.new (block_parts first (rule β (bool_eq_reif a b r))) }
{
    let x = first;
    let y = first + 1;
    two_products(writer, a, b, r, first);
    two_terms(writer, Kind::Equal, x, -1, y, 0);
    writer.row(
        Kind::Equal,
        &[
            Term::new(-1, r),
            Term::new(-1, a),
            Term::new(-1, b),
            Term::new(1, x),
            Term::new(1, y),
        ],
        1,
    );
}

// 35 bool_le_reif: r is 1 where a is 0 and where b is 1; a is at most b where r is 1.
pub fn bool_le_reif(writer: &mut Writer, a: usize, b: usize, r: usize)
    ensures { (β : ℕ → Bounds) (first : ℕ) → Writes writer.old writer.new (block_parts first (rule β (bool_le_reif a b r))) }
{
    writer.row(Kind::AtMost, &[Term::new(-1, a), Term::new(-1, r)], 1);
    two_terms(writer, Kind::AtMost, b, -1, r, 0);
    three_terms(writer, Kind::AtMost, a, -1, b, 1, r, -1);
}

// 36 bool_lt_reif: where r is 1, a is 0 and b is 1; b is at most a where r is 0.
pub fn bool_lt_reif(writer: &mut Writer, a: usize, b: usize, r: usize)
    ensures { (β : ℕ → Bounds) (first : ℕ) → Writes writer.old writer.new (block_parts first (rule β (bool_lt_reif a b r))) }
{
    two_terms(writer, Kind::AtMost, a, 1, r, -1);
    two_terms(writer, Kind::AtMost, r, -1, b, 0);
    three_terms(writer, Kind::AtMost, b, -1, a, -1, r, 0);
}
