// Codes 10 to 15, 31 and 32: the blocks of sums of terms, of int_eq_reif and int_ne_reif. From 12 on `sum` is L and U.
// That these fit stays a clause: they are a pair of bounds as others are, and come from the list of all sums, in which those of other codes are not asked to fit.
ghost use Rattle.std.specs.Prelude.{◌≡◌, ℕ, ◌<◌, ◌≤◌, nat_abs};
ghost use mathlib.Core.List.{flat_map};
ghost use Rattle.models.specs.Builtin.{int_lin_eq, int_lin_le, int_lin_ne};
ghost use Rattle.builtins.specs.Coded.{linear};
ghost use Rattle.rules.specs.Rule.{rule, zero_rows};
ghost use Rattle.linearsums.specs.Sum.{linear_sum, equal_sum, Fits};
ghost use Rattle.laying.specs.Part.{row_parts, block_parts};
ghost use Rattle.laying.specs.Writes.{Writes};
ghost use Rattle.laying.specs.Sizes.{first_numbers};
ghost use Rattle.linearblocks.specs.Rows.{size_rows, at_most_rows, terms_reified, two_reified, at_most_reified};

use crate::sums::{write_bounded_sum, write_split, write_sum};
use arguments::{past_terms_at, var_at};
use extremes::larger_absolute;
use integers::{Bounds, minus, opposite};
use laying::Writer;
use laying::term::Term;
use words::kind::Kind;
use words::word::Word;

// The number −1 as a payload, of 28 bits; it numbers no case.
const MINUS_ONE: u32 = 268435455;

// int_lin_eq: Σ−c=0. int_lin_eq and int_lin_le stay two: each is one call of `write_sum`, and its clause names its own rule.
pub fn int_lin_eq(writer: &mut Writer, args: &[u32])
    ensures { (first : ℕ) (β : ℕ → Bounds) → Writes writer.old writer.new (block_parts first (rule β (linear int_lin_eq args.now))) }
{
    write_sum(writer, Kind::Equal, args);
}

// int_lin_le: Σ−c≤0.
pub fn int_lin_le(writer: &mut Writer, args: &[u32])
    ensures { (first : ℕ) (β : ℕ → Bounds) → Writes writer.old writer.new (block_parts first (rule β (linear int_lin_le args.now))) }
{
    write_sum(writer, Kind::AtMost, args);
}

// int_lin_ne: x in L..U, b, z in Z(x): Σ−x−c=0; z:=b×x; −x+2×z+1≤0; x+(U+1)×b−U≤0.
pub fn int_lin_ne(writer: &mut Writer, args: &[u32], sum: Bounds, first: usize)
    requires { (first < first_numbers) × Fits sum }
    ensures { (β : ℕ → Bounds) → sum ≡ linear_sum β args.now → Writes writer.old writer.new (block_parts first (rule β (linear int_lin_ne args.now))) }
{
    write_split(writer, args, sum, first);
    writer.row(
        Kind::AtMost,
        &[Term::new(-1, first), Term::new(2, first + 2)],
        1,
    );
    writer.only_negative(first, first + 1, sum.upper);
}

// x−2×z+p×r+q≤0; −x+2×z+u×r+v≤0, x and z from `first` on. The numbers stay parameters: they are those of two rows, and a struct of them would be made for each call alone.
fn write_size(writer: &mut Writer, r: usize, p: i64, q: i64, u: i64, v: i64, first: usize)
    requires { first < first_numbers }
    ensures { Writes writer.old writer.new (flat_map (row_parts first) (size_rows r p q u v)) }
{
    writer.row(
        Kind::AtMost,
        &[
            Term::new(1, first),
            Term::new(-2, first + 2),
            Term::new(p, r),
        ],
        q,
    );
    writer.row(
        Kind::AtMost,
        &[
            Term::new(-1, first),
            Term::new(2, first + 2),
            Term::new(u, r),
        ],
        v,
    );
}

// x−2×z+W×r−W≤0; −x+2×z−r+1≤0. Where it is not `equal`: x−2×z−W×r≤0; −x+2×z+r≤0.
// The flag stays, here and in the two blocks below: their definitions take it, and two functions of each would be twins but for the numbers of these rows.
fn write_zero(writer: &mut Writer, w: i64, r: usize, first: usize, equal: bool)
    requires { (first < first_numbers) × (nat_abs w ≤ 1152921504606846976) }
    ensures { Writes writer.old writer.new (flat_map (row_parts first) (zero_rows equal w r)) }
{
    let less = opposite(w);
    if equal {
        write_size(writer, r, w, less, -1, 1, first);
    } else {
        write_size(writer, r, less, 0, 1, 0, first);
    }
}

// int_lin_eq_reif: the auxiliaries, the first two rows and the last one of int_lin_ne; before that two rows with W=max(|L|,|U|). int_lin_ne_reif, where it is not `equal`.
pub fn zero_reif(writer: &mut Writer, args: &[u32], sum: Bounds, first: usize, equal: bool)
    requires { (first < first_numbers) × Fits sum }
    ensures { (β : ℕ → Bounds) → sum ≡ linear_sum β args.now → Writes writer.old writer.new (block_parts first (terms_reified β equal args.now)) }
{
    let w = larger_absolute(sum.lower, sum.upper);
    let r = var_at(args, past_terms_at(args, 0) + 1);
    write_split(writer, args, sum, first);
    write_zero(writer, w, r, first, equal);
    writer.only_negative(first, first + 1, sum.upper);
}

// int_eq_reif: int_lin_eq_reif of the two terms 1×a and −1×b, with the constant 0. int_ne_reif, where it is not `equal`.
pub fn two_reif(writer: &mut Writer, args: &[u32], sum: Bounds, first: usize, equal: bool)
    requires { (first < first_numbers) × Fits sum }
    ensures { (β : ℕ → Bounds) → sum ≡ equal_sum β args.now → Writes writer.old writer.new (block_parts first (two_reified β equal args.now)) }
{
    let a = Word::at(args, 0).bits();
    let b = Word::at(args, 1).bits();
    let r = Word::at(args, 2).bits();
    // the length 2, the numbers 1 and −1, the variables, the number 0, the variable r
    let words = [2, 1, MINUS_ONE, a, b, 0, r];
    zero_reif(writer, &words, sum, first, equal);
}

// x+U×r−U≤0; −x+(L−1)×r+1≤0, x the variable `first`.
fn write_at_most(writer: &mut Writer, sum: Bounds, r: usize, first: usize)
    requires { (first < first_numbers) × Fits sum }
    ensures { Writes writer.old writer.new (flat_map (row_parts first) (at_most_rows sum.lower sum.upper r)) }
{
    writer.row(
        Kind::AtMost,
        &[Term::new(1, first), Term::new(sum.upper, r)],
        opposite(sum.upper),
    );
    writer.row(
        Kind::AtMost,
        &[Term::new(-1, first), Term::new(minus(sum.lower, 1), r)],
        1,
    );
}

// int_lin_le_reif: x in L..U: Σ−x−c=0; x+U×r−U≤0; −x+(L−1)×r+1≤0.
pub fn int_lin_le_reif(writer: &mut Writer, args: &[u32], sum: Bounds, first: usize)
    requires { (first < first_numbers) × Fits sum }
    ensures { (β : ℕ → Bounds) → sum ≡ linear_sum β args.now → Writes writer.old writer.new (block_parts first (at_most_reified β args.now)) }
{
    let r = var_at(args, past_terms_at(args, 0) + 1);
    write_bounded_sum(writer, args, sum, first);
    write_at_most(writer, sum, r, first);
}
