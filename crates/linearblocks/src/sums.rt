// What several linear blocks share: the constant c, and rows that begin with the sum.
ghost use Rattle.std.specs.Prelude.{◌≡◌, [], ◌∷◌, ℕ, ◌<◌};
ghost use Rattle.integers.specs.Number.{neg};
ghost use Rattle.words.specs.Small.{Near};
ghost use Rattle.models.specs.Model.{num, past_terms};
ghost use Rattle.words.specs.Kinds.{kind_number};
ghost use Rattle.laying.specs.Part.{constant, row_parts, block_parts};
ghost use Rattle.laying.specs.Writes.{Writes};
ghost use Rattle.laying.specs.Sizes.{first_numbers};
ghost use Rattle.linearblocks.specs.Rows.{link, split, bounded_sum, sum_parts};

use arguments::{num_at, past_terms_at, size_at};
use extremes::{zero_lower, zero_upper};
use integers::{Bounds, opposite};
use laying::Writer;
use words::kind::Kind;

// The constant after the terms.
fn constant_of(args: &[u32]) -> i64
    ensures value { result ≡ num args.now (past_terms args.now 0) }
    ensures near { Near result }
{
    num_at(args, past_terms_at(args, 0))
}

// The constant of a row, the opposite of the constant after the terms.
fn write_minus_constant(writer: &mut Writer, args: &[u32])
    ensures { Writes writer.old writer.new (constant (neg (num args.now (past_terms args.now 0))) ∷ []) }
{
    writer.constant(opposite(constant_of(args)));
}

// A row of a kind: Σ−c.
pub fn write_sum(writer: &mut Writer, kind: Kind, args: &[u32])
    ensures { (first : ℕ) → Writes writer.old writer.new (sum_parts (kind_number kind) first args.now) }
{
    writer.head(kind, size_at(args, 0));
    writer.sum(args, 0);
    write_minus_constant(writer, args);
}

// Σ−x−c=0
pub fn write_link(writer: &mut Writer, args: &[u32], first: usize)
    ensures { Writes writer.old writer.new (row_parts first (link args.now)) }
{
    writer.head(Kind::Equal, size_at(args, 0) + 1);
    writer.sum(args, 0);
    writer.term(-1, first);
    write_minus_constant(writer, args);
}

// x in given bounds: Σ−x−c=0.
pub fn write_bounded_sum(writer: &mut Writer, args: &[u32], sum: Bounds, first: usize)
    ensures { Writes writer.old writer.new (block_parts first (bounded_sum args.now sum.lower sum.upper)) }
{
    writer.bound(sum.lower, sum.upper);
    write_link(writer, args, first);
}

// x in given bounds, b, z in Z(x): Σ−x−c=0; z:=b×x.
pub fn write_split(writer: &mut Writer, args: &[u32], sum: Bounds, first: usize)
    requires { first < first_numbers }
    ensures { Writes writer.old writer.new (block_parts first (split args.now sum.lower sum.upper)) }
{
    writer.bound(sum.lower, sum.upper);
    writer.bound(0, 1);
    writer.bound(zero_lower(sum.lower), zero_upper(sum.upper));
    write_link(writer, args, first);
    writer.times(first + 2, first + 1, first);
}
