// Codes 21 to 23: the blocks of lists of Boolean variables.
ghost use Rattle.std.specs.Prelude.{◌≡◌, [], ◌∷◌, ◌++◌, ℕ, ◌≤◌, pos};
ghost use Rattle.integers.specs.Number.{◌⊖◌, +1, -1, -2};
ghost use Rattle.integers.specs.Terms.{◌·◌};
ghost use Rattle.integers.specs.declared.Bounds.{Bounds};
ghost use Rattle.models.specs.Builtin.{array_bool_xor};
ghost use Rattle.models.specs.Model.{vars};
ghost use Rattle.rules.specs.Rule.{rule};
ghost use Rattle.rowsystems.specs.Row.{sum=0};
ghost use Rattle.rules.specs.Block.{aux};
ghost use Rattle.rules.specs.Parts.{each};
ghost use Rattle.laying.specs.Part.{row_parts, block_parts};
ghost use Rattle.laying.specs.Writes.{Writes};
ghost use Rattle.linearblocks.specs.Rows.{all_row, clause_of, and_of};

use arguments::{past_at, size_at, var_at};
use extremes::half_less;
use integers::minus;
use laying::Writer;
use words::kind::Kind;

// 1 − n
fn one_less(n: usize) -> i64
    requires { n ≤ 32 }
    ensures { result ≡ +1 ⊖ pos n }
{
    minus(1, n as i64)
}

// bool_clause: −Σas+Σbs+1−m≤0, m the second list's length.
pub fn bool_clause(writer: &mut Writer, args: &[u32])
    ensures { (first : ℕ) (β : ℕ → Bounds) → Writes writer.old writer.new (block_parts first (rule β (clause_of args.now))) }
{
    let second = past_at(args, 0);
    let m = size_at(args, second);
    writer.head(Kind::AtMost, size_at(args, 0) + m);
    writer.each(args, 0, -1);
    writer.each(args, second, 1);
    writer.constant(one_less(m));
}

// Σas−r−n+1≤0. `write_all` and `write_odd` stay two: one function would take kind, coefficient, variable and constant, six parameters for four lines.
fn write_all(writer: &mut Writer, args: &[u32], r: usize)
    ensures { (first : ℕ) → Writes writer.old writer.new (row_parts first (all_row (vars args.now 0) r)) }
{
    let n = size_at(args, 0);
    writer.head(Kind::AtMost, n + 1);
    writer.each(args, 0, 1);
    writer.term(-1, r);
    writer.constant(one_less(n));
}

// array_bool_and: each r−as_i≤0; Σas−r−n+1≤0.
pub fn array_bool_and(writer: &mut Writer, args: &[u32])
    ensures { (first : ℕ) (β : ℕ → Bounds) → Writes writer.old writer.new (block_parts first (rule β (and_of args.now))) }
{
    let r = var_at(args, past_at(args, 0));
    writer.order(args, 1, r, size_at(args, 0), false);
    write_all(writer, args, r);
}

// Σ−2×t−1=0, t the variable `first`.
fn write_odd(writer: &mut Writer, args: &[u32], first: usize)
    ensures { Writes writer.old writer.new (row_parts first (sum=0 (each +1 (vars args.now 0) ++ (-2 · aux 0 ∷ [])) -1)) }
{
    writer.head(Kind::Equal, size_at(args, 0) + 1);
    writer.each(args, 0, 1);
    writer.term(-2, first);
    writer.constant(-1);
}

// array_bool_xor: t from 0 to (n−1)/2: Σ−2×t−1=0.
pub fn array_bool_xor(writer: &mut Writer, args: &[u32], first: usize)
    ensures { (β : ℕ → Bounds) → Writes writer.old writer.new (block_parts first (rule β (array_bool_xor (vars args.now 0)))) }
{
    writer.bound(0, half_less(size_at(args, 0)));
    write_odd(writer, args, first);
}
