// The rows over one-hot bits, and the bounds that go before them.
// How large n, base, v and `from` may be stays in clauses: each is one number, so large that no sum over it wraps, and no struct has two of them in all functions.
ghost use Rattle.std.specs.Prelude.{◌≡◌, [], ◌∷◌, ℕ, ℤ, ◌+◌, ◌-◌, ◌<◌, ◌≤◌, nat_abs, get_or};
ghost use Rattle.integers.specs.Number.{◌⊖◌, count, +0, +1, -1};
ghost use Rattle.integers.specs.declared.Bounds.{Bounds};
ghost use Rattle.integers.specs.Bounds.{bounds_in};
ghost use Rattle.words.specs.Limit as Limit;
ghost use Rattle.laying.specs.Part.{term, constant};
ghost use Rattle.laying.specs.Lists.{many, same_at, label_at};
ghost use Rattle.laying.specs.Gives.{Gives};
ghost use Rattle.laying.specs.Writes.{Writes};
ghost use Rattle.choiceblocks.specs.Rows.{zero_at, number_term_at, value_at, member_at, one_row, sum_row, choice_rows, gates, gated_rows, later_row, first_at};

use arguments::{count_of, num_at, var_at};
use extremes::{gap_plus, zero_lower, zero_upper};
use integers::minus;
use laying::Writer;
use words::domain::{Domain, domain_of};
use words::kind::Kind;
use words::list::at_or;

// Z of n variables, from place base on; `lower` and `upper` give a variable's bounds, of any size.
// Two closures and none of `Bounds`, here and in `gates`: `Writer::bounds` asks for the lower and the upper bounds apart, so that one would be called twice for each variable.
pub fn zeros<L: Fn(usize) -> i64, U: Fn(usize) -> i64>(
    writer: &mut Writer,
    args: &[u32],
    base: usize,
    n: usize,
    lower: L,
    upper: U,
)
    requires few { (n ≤ Limit.terms) × (base < 1000000000000) }
    requires lowers { (x : ℕ) → L.pre lower x }
    requires uppers { (x : ℕ) → U.pre upper x }
    ensures { (β : ℕ → Bounds) → ((x : ℕ) (r : ℤ) → L.post lower x r → r ≡ (β x).lower) → ((x : ℕ) (r : ℤ) → U.post upper x r → r ≡ (β x).upper) → Writes writer.old writer.new (many (zero_at β args.now base) n) }
{
    writer.bounds(
        n,
        |k| zero_lower(lower(var_at(args, base + k))),
        |k| zero_upper(upper(var_at(args, base + k))),
    );
}

// The last words of a row: − x = 0.
fn row_end(writer: &mut Writer, x: usize)
    ensures { Writes writer.old writer.new (term -1 x ∷ constant +0 ∷ []) }
{
    writer.term(-1, x);
    writer.constant(0);
}

// Σ − x = 0 over n terms, each given by its place: its coefficient and its variable. Rows of equal coefficients and of labels, below, take methods of the writer that test no list of numbers where there is no room.
pub fn sum_row<C: Fn(usize) -> i64, V: Fn(usize) -> usize>(
    writer: &mut Writer,
    n: usize,
    coefficient: C,
    variable: V,
    x: usize,
)
    requires few { n ≤ Limit.terms }
    requires coefficients { (k : ℕ) → k < n → C.pre coefficient k }
    requires variables { (k : ℕ) → k < n → V.pre variable k }
    ensures { (c : ℕ → ℤ) (v : ℕ → ℕ) → Gives n (C.post coefficient) c → Gives n (V.post variable) v → Writes writer.old writer.new (sum_row (λ k. term (c k) (v k) ∷ []) n x) }
{
    writer.head(Kind::Equal, n + 1);
    writer.terms(n, coefficient, variable);
    row_end(writer, x);
}

// Σb − 1 = 0 over n consecutive variables.
pub fn one_bit(writer: &mut Writer, v: usize, n: usize)
    requires { (n ≤ Limit.terms) × (v < 1000000000) }
    ensures { Writes writer.old writer.new (one_row v n) }
{
    writer.head(Kind::Equal, n);
    writer.same(1, v, n);
    writer.constant(-1);
}

// Σz − m = 0 over n consecutive variables.
pub fn one_row(writer: &mut Writer, v: usize, n: usize, m: usize)
    requires { (n ≤ Limit.terms) × (v < 1000000000) }
    ensures { Writes writer.old writer.new (sum_row (same_at +1 v) n m) }
{
    writer.head(Kind::Equal, n + 1);
    writer.same(1, v, n);
    row_end(writer, m);
}

// Σj×b − x = 0 over n consecutive labels from `from` on.
fn label_row(writer: &mut Writer, from: i64, v: usize, n: usize, x: usize)
    requires { (n ≤ Limit.terms) × (v < 1000000000) × (nat_abs from < 1000000000) }
    ensures { Writes writer.old writer.new (sum_row (label_at from v) n x) }
{
    writer.head(Kind::Equal, n + 1);
    writer.labels(from, v, n);
    row_end(writer, x);
}

// Σa×b − c = 0 over n numbers, from place base on.
pub fn number_row(writer: &mut Writer, args: &[u32], base: usize, v: usize, n: usize, c: usize)
    requires { (n ≤ Limit.terms) × (base < 1000000000) × (v < 1000000000) }
    ensures { Writes writer.old writer.new (sum_row (number_term_at args.now base v) n c) }
{
    sum_row(writer, n, |k| num_at(args, base + k), |k| v + k, c);
}

// Σv×b − x = 0 over the first n numbers of a list. n stays beside the list, here and in `member_row`: the row is promised for any n, past the list's end too.
pub fn value_row(writer: &mut Writer, vs: &[i64], v: usize, n: usize, x: usize)
    requires { (n ≤ Limit.terms) × (v < 1000000000) }
    ensures { Writes writer.old writer.new (sum_row (value_at vs.now v) n x) }
{
    sum_row(writer, n, |k| at_or(vs, k, 0), |k| v + k, x);
}

// The variable that a number labels; v has the label `from`.
fn labelled(v: usize, number: i64, from: i64) -> usize
    requires { (v < 1000000000000) × (nat_abs number < 1000000000) × (nat_abs from < 1000000000) }
    ensures { result ≡ v + count (number ⊖ from) }
{
    v + count_of(minus(number, from))
}

// Σb − r = 0 over the bits that the first n numbers of a list label; v has the label `from`.
pub fn member_row(writer: &mut Writer, vs: &[i64], from: i64, v: usize, n: usize, r: usize)
    requires { (n ≤ Limit.terms) × (v < 1000000000) × (nat_abs from < 1000000000) × ((k : ℕ) → nat_abs (get_or vs.now k +0) < 1000000000) }
    ensures { Writes writer.old writer.new (sum_row (member_at vs.now from v) n r) }
{
    writer.head(Kind::Equal, n + 1);
    writer.multiples(1, n, |k| labelled(v, at_or(vs, k, 0), from));
    row_end(writer, r);
}

// One of n consecutive bits is 1; their labels rise from `from` on, and x is the label of that bit.
pub fn choice(writer: &mut Writer, from: i64, v: usize, n: usize, x: usize)
    requires { (n ≤ Limit.terms) × (v < 1000000000) × (nat_abs from < 1000000000) }
    ensures { Writes writer.old writer.new (choice_rows from v n x) }
{
    one_bit(writer, v, n);
    label_row(writer, from, v, n, x);
}

// The bounds of n bits, and Z of n variables from place base on.
pub fn gates<L: Fn(usize) -> i64, U: Fn(usize) -> i64>(
    writer: &mut Writer,
    args: &[u32],
    base: usize,
    n: usize,
    lower: L,
    upper: U,
)
    requires few { (n ≤ Limit.terms) × (base < 1000000000000) }
    requires lowers { (x : ℕ) → L.pre lower x }
    requires uppers { (x : ℕ) → U.pre upper x }
    ensures { (β : ℕ → Bounds) → ((x : ℕ) (r : ℤ) → L.post lower x r → r ≡ (β x).lower) → ((x : ℕ) (r : ℤ) → U.post upper x r → r ≡ (β x).upper) → Writes writer.old writer.new (gates β args.now base n) }
{
    writer.bits(n);
    zeros(writer, args, base, n, lower, upper);
}

// z := x × b for n variables from place base on, the bits from v on, each z n after its bit; Σz − m = 0.
pub fn gated(writer: &mut Writer, args: &[u32], base: usize, v: usize, n: usize, m: usize)
    requires { (n ≤ Limit.terms) × (base < 1000000000) × (v < 100000000) }
    ensures { Writes writer.old writer.new (gated_rows args.now base v n m) }
{
    writer.products(args, base, v + n, v, n);
    one_row(writer, v + n, n, m);
}

// x − y + 1 ≤ 0 where one of n consecutive bits is 1: x − y + K×(their sum) + 1 − K ≤ 0, K = hi x − lo y + 1.
fn later(writer: &mut Writer, x: usize, y: usize, v: usize, n: usize, domains: &[Domain])
    requires { (n ≤ Limit.terms) × (v < 1000000000) }
    ensures { Writes writer.old writer.new (later_row (bounds_in domains.now) x y v n) }
{
    let p = gap_plus(domain_of(domains, x), domain_of(domains, y), 1);
    writer.head(Kind::AtMost, n + 2);
    writer.term(1, x);
    writer.term(-1, y);
    writer.same(p, v, n);
    writer.constant(minus(1, p));
}

// For each place k below n − 1 the row `later` of the two variables of that place, over the bits after bit k; bit 0 is variable v.
pub fn first_only<X: Fn(usize) -> usize, Y: Fn(usize) -> usize>(
    writer: &mut Writer,
    lesser: X,
    larger: Y,
    v: usize,
    n: usize,
    domains: &[Domain],
)
    requires few { (n ≤ Limit.terms) × (v < 100000000) }
    requires lesser { (k : ℕ) → k < n → X.pre lesser k }
    requires larger { (k : ℕ) → k < n → Y.pre larger k }
    ensures { (x y : ℕ → ℕ) → Gives n (X.post lesser) x → Gives n (Y.post larger) y → Writes writer.old writer.new (many (first_at (bounds_in domains.now) x y v n) (n - 1)) }
{
    for k in 0..n.saturating_sub(1) {
        later(
            writer,
            lesser(k),
            larger(k),
            v + (k + 1),
            n - (k + 1),
            domains,
        );
    }
}
