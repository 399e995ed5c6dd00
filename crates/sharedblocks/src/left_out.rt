// The row "sum of the bits left out = 0".
// How large n, v and `from` may be stays in clauses, and code, args, `from` and n come one by one: they stand between one call and three functions, so a struct with these facts would be no plainer.
ghost use Rattle.std.specs.Prelude.{◌≡◌, not, [], ◌∷◌, ◌<◌, ◌≤◌, nat_abs, pos};
ghost use Rattle.integers.specs.Choice.{◌if◌else◌};
ghost use Rattle.integers.specs.Number.{+1};
ghost use Rattle.integers.specs.Bounds.{◌to◌, within};
ghost use Rattle.words.specs.Limit as Limit;
ghost use Rattle.models.specs.Codes.{code_number};
ghost use Rattle.laying.specs.Part.{term};
ghost use Rattle.laying.specs.Lists.{many};
ghost use Rattle.laying.specs.Writes.{Writes};
ghost use Rattle.sharedblocks.specs.LeftOut.{keeps, left_at, left_count, left_row};

use arguments::{is_member, size_at};
use integers::plus;
use integers::test::one_if;
use laying::Writer;
use models::code::Code;
use words::kind::Kind;

// Whether v is a place of a list of n elements, counted from 1.
#[tactic(auto, unfolding(integers::specs::Bounds::within))]
fn is_place(n: usize, v: i64) -> bool
    requires { n ≤ Limit.list_length }
    ensures { result ≡ within (+1 to pos n) v }
{
    1 <= v && v <= n as i64
}

// Whether a constraint of array_int_element, array_var_int_element or set_in keeps the value v of its variable.
// No match on the code: the definition tells the three apart by their order, for any code; a match would need the clause that the code chooses here and in each caller, and be no plainer.
fn is_kept(code: Code, args: &[u32], v: i64) -> bool
    ensures { result ≡ keeps (code_number code) args.now v }
{
    if code.number() < Code::ArrayIntMaximum.number() {
        return is_place(size_at(args, 1), v);
    }
    is_member(args, 1, v)
}

// A term of coefficient 1 where the value is not kept.
fn left_term(writer: &mut Writer, kept: bool, v: usize)
    ensures { Writes writer.old writer.new (term +1 v ∷ [] if not kept else []) }
{
    if !kept {
        writer.term(1, v);
    }
}

// The bits, numbered from v on, of those of n values from `from` on that are left out.
fn left_bits(writer: &mut Writer, code: Code, args: &[u32], from: i64, v: usize, n: usize)
    requires { (n ≤ Limit.terms) × (v < 1000000000000) × (nat_abs from < 1000000000000) }
    ensures { Writes writer.old writer.new (many (left_at (code_number code) args.now from v) n) }
{
    for k in 0..n {
        left_term(writer, is_kept(code, args, plus(from, k as i64)), v + k);
    }
}

// How many of n values from `from` on are left out.
fn count_left(code: Code, args: &[u32], from: i64, n: usize) -> usize
    requires { (n ≤ Limit.terms) × (nat_abs from < 1000000000000) }
    ensures value { result ≡ left_count (code_number code) args.now from n }
    ensures size { result ≤ Limit.terms }
{
    let mut m = 0;
    for k in 0..n {
        m += one_if(!is_kept(code, args, plus(from, k as i64)));
    }
    m
}

// The row of the bits left out, where there are any.
pub fn left_row(writer: &mut Writer, code: Code, args: &[u32], from: i64, v: usize, n: usize)
    requires { (n ≤ Limit.terms) × (v < 1000000000) × (nat_abs from < 1000000000) }
    ensures { Writes writer.old writer.new (left_row (code_number code) args.now from v n) }
{
    let m = count_left(code, args, from, n);
    if m == 0 {
        return;
    }
    writer.head(Kind::Equal, m);
    left_bits(writer, code, args, from, v, n);
    writer.constant(0);
}
