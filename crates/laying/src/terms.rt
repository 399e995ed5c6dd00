// Rows, and the parts that a writer puts for each place of a list.
ghost use Rattle.std.specs.Prelude.{◌≡◌, [], ◌∷◌, ℕ, ℤ, ◌+◌, ◌*◌, ◌<◌, ◌≤◌, nat_abs, length};
ghost use Rattle.integers.specs.Choice.{◌if◌else◌};
ghost use Rattle.integers.specs.Number.{◌⊕◌, neg, +0, +1, -1};
ghost use Rattle.integers.specs.Lists.{all, list_of};
ghost use Rattle.words.specs.Kind.{at_most};
ghost use Rattle.words.specs.Kinds.{kind_number};
ghost use Rattle.words.specs.Limit as Limit;
ghost use Rattle.words.specs.Word.{in_range};
ghost use Rattle.models.specs.Model.{size, past};
ghost use Rattle.words.specs.Overlay.{overlay};
ghost use Rattle.laying.specs.Part.{bound, term, words_in};
ghost use Rattle.laying.specs.Lists.{many, term_of, row_parts_of, sum_at, each_at, same_at, label_at, bit_at, product_at, order_at};
ghost use Rattle.laying.specs.Gives.{Gives};
ghost use Rattle.laying.specs.Writes.{Writes};

use crate::Writer;
use crate::term::Term;
use arguments::{num_at, past_at, size_at, var_at};
use integers::{opposite, plus};
use words::in_range;
use words::kind::Kind;
use words::word::Word;

// Whether n numbers, each given by its place, are in the range.
fn all_fit<C: Fn(usize) -> i64>(n: usize, number: C) -> bool
    requires { (k : ℕ) → k < n → C.pre number k }
    ensures { (c : ℕ → ℤ) → Gives n (C.post number) c → result ≡ all in_range (list_of c n) }
{
    let mut fit = true;
    for k in 0..n {
        fit &= in_range(number(k));
    }
    fit
}

// The words of c × each of n consecutive variables from v on, from a place on from which all of them fit.
fn put_same(out: &mut [u32], at: usize, c: i64, v: usize, n: usize)
    requires { (at + 2 * n ≤ length out.old) × (n ≤ Limit.terms) × (v < 1000000000000) }
    ensures { out.new ≡ overlay out.old at (words_in (many (same_at c v) n)) }
{
    let number = Word::of_number(Kind::Number, c).bits();
    for k in 0..n {
        out[at + 2 * k] = Word::new(Kind::Variable, v + k).bits();
        out[at + 2 * k + 1] = number;
    }
}

// The six words of the row x − y ≤ 0, from a place on from which they fit.
fn put_pair(out: &mut [u32], at: usize, x: usize, y: usize)
    requires { at + 6 ≤ length out.old }
    ensures { out.new ≡ overlay out.old at (words_in (row_parts_of at_most (term_of +1 x ∷ term_of -1 y ∷ []) +0)) }
{
    out[at] = Word::new(Kind::AtMost, 2).bits();
    out[at + 1] = Word::new(Kind::Variable, x).bits();
    out[at + 2] = Word::of_number(Kind::Number, 1).bits();
    out[at + 3] = Word::new(Kind::Variable, y).bits();
    out[at + 4] = Word::of_number(Kind::Number, -1).bits();
    out[at + 5] = Word::of_number(Kind::Number, 0).bits();
}

// The words of the n rows that `order` writes, from a place on from which all of them fit.
fn put_order(out: &mut [u32], at: usize, args: &[u32], base: usize, m: usize, n: usize, up: bool)
    requires { (at + 6 * n ≤ length out.old) × (n ≤ Limit.terms) × (base < 1000000000000) }
    ensures { out.new ≡ overlay out.old at (words_in (many (order_at args.now base m up) n)) }
{
    for k in 0..n {
        let x = var_at(args, base + k);
        put_pair(out, at + 6 * k, first_if(up, x, m), first_if(up, m, x));
    }
}

// `terms`, `bounds`, `products` and `order` stay four: one function of them would take what is put for a place as a closure that changes the writer, with the clauses of that part, and be no plainer than a loop of one line. Where there is no room, counting at once is faster (docs/BENCHMARKS.md, what was mended).
// Where there is room, a loop and a row have a writer of their own over the same list and hand back what was laid: by the lent one, the list and the four counts are read again from memory after each word, and translate takes up to 1.7 times as long.
impl<'a> Writer<'a> {
    // n terms, each given by its place: its coefficient and its variable. Where the list has no room left, they are counted.
    // That n is at most the terms of a row stays a clause, here and below: it is the length of a list, a width or a difference of such, counted anew by each caller. How large v, base and i may be stays in clauses too: each is one number, so large that no sum over it wraps.
    pub fn terms<C: Fn(usize) -> i64, V: Fn(usize) -> usize>(
        &mut self,
        n: usize,
        coefficient: C,
        variable: V,
    )
        requires few { n ≤ Limit.terms }
        requires coefficients { (k : ℕ) → k < n → C.pre coefficient k }
        requires variables { (k : ℕ) → k < n → V.pre variable k }
        ensures { (c : ℕ → ℤ) (v : ℕ → ℕ) → Gives n (C.post coefficient) c → Gives n (V.post variable) v → Writes self.old self.new (many (λ k. term (c k) (v k) ∷ []) n) }
    {
        if self.out.len() <= self.laid.words {
            let fit = all_fit(n, coefficient);
            self.count(2 * n, 0, 0, fit);
            return;
        }
        let mut writer = Writer {
            out: &mut *self.out,
            laid: self.laid,
        };
        for k in 0..n {
            writer.term(coefficient(k), variable(k));
        }
        self.laid = writer.laid;
    }

    // c × each of n variables, each given by its place. Where the list has no room left and c is in the range, they are counted with no loop, which `terms` takes to test each coefficient.
    pub fn multiples<V: Fn(usize) -> usize>(&mut self, c: i64, n: usize, variable: V)
        requires few { n ≤ Limit.terms }
        requires variables { (k : ℕ) → k < n → V.pre variable k }
        ensures { (v : ℕ → ℕ) → Gives n (V.post variable) v → Writes self.old self.new (many (λ k. term c (v k) ∷ []) n) }
    {
        if self.out.len() <= self.laid.words && in_range(c) {
            self.count(2 * n, 0, 0, true);
            return;
        }
        self.terms(n, |_| c, variable);
    }

    // c × each of n consecutive variables from v on. Where there is room for all of them, their words are put with no further test: by `terms` alone, translate of 8,192 words takes some 5 in 100 longer.
    pub fn same(&mut self, c: i64, v: usize, n: usize)
        requires { (n ≤ Limit.terms) × (v < 1000000000000) }
        ensures { Writes self.old self.new (many (same_at c v) n) }
    {
        if in_range(c)
            && self.laid.words <= self.out.len()
            && 2 * n <= self.out.len() - self.laid.words
        {
            put_same(self.out, self.laid.words, c, v, n);
            self.count(2 * n, 0, 0, true);
            return;
        }
        self.multiples(c, n, |k| v + k);
    }

    // The terms of the parallel lists whose length word is at place i.
    pub fn sum(&mut self, args: &[u32], i: usize)
        requires { i < 1000000000000 }
        ensures { Writes self.old self.new (many (sum_at args.now (i + 1) (past args.now i)) (size args.now i)) }
    {
        let numbers = i + 1;
        let variables = past_at(args, i);
        self.terms(
            size_at(args, i),
            |k| num_at(args, numbers + k),
            |k| var_at(args, variables + k),
        );
    }

    // c × each variable of the list whose length word is at place i.
    pub fn each(&mut self, args: &[u32], i: usize, c: i64)
        requires { i < 1000000000000 }
        ensures { Writes self.old self.new (many (each_at args.now c (i + 1)) (size args.now i)) }
    {
        let variables = i + 1;
        self.multiples(c, size_at(args, i), |k| var_at(args, variables + k));
    }

    // Consecutive numbers × consecutive variables, n of them. Numbers between two of the range are in the range: where the list has no room left, the first one and the one after the last are tested alone.
    pub fn labels(&mut self, from: i64, v: usize, n: usize)
        requires { (n ≤ Limit.terms) × (v < 1000000000000) × (nat_abs from < 1000000000000) }
        ensures { Writes self.old self.new (many (label_at from v) n) }
    {
        if self.out.len() <= self.laid.words && in_range(from) && in_range(plus(from, n as i64)) {
            self.count(2 * n, 0, 0, true);
            return;
        }
        self.terms(n, |k| plus(from, k as i64), |k| v + k);
    }

    // A row of a kind, of given terms. Where the list has no room left, they are counted.
    // The loop is its own: through `terms`, by closures that read the list, translate of 1,024 words took some 3 to 6 in 100 longer, tried in a transcription to Rust.
    // It is taken in where it is called: there the terms are a list of known length.
    #[inline(always)]
    pub fn row(&mut self, kind: Kind, terms: &[Term], c: i64)
        requires { length terms.now ≤ Limit.terms }
        ensures { Writes self.old self.new (row_parts_of (kind_number kind) terms.now c) }
    {
        if self.out.len() <= self.laid.words {
            let fit = all_fit(terms.len(), |k| terms[k].number()) & in_range(c);
            self.count(2 + 2 * terms.len(), 0, 1, fit);
            return;
        }
        let mut writer = Writer {
            out: &mut *self.out,
            laid: self.laid,
        };
        writer.head(kind, terms.len());
        for term in terms {
            writer.term(term.number(), term.variable);
        }
        writer.constant(c);
        self.laid = writer.laid;
    }

    // For the sign bit b of x, which is at most u: x + (u+1)×b − u ≤ 0.
    pub fn only_negative(&mut self, x: usize, b: usize, u: i64)
        requires { nat_abs u ≤ 1152921504606846976 }
        ensures { Writes self.old self.new (row_parts_of at_most (term_of +1 x ∷ term_of (u ⊕ +1) b ∷ []) (neg u)) }
    {
        self.row(
            Kind::AtMost,
            &[Term::new(1, x), Term::new(plus(u, 1), b)],
            opposite(u),
        );
    }

    // n auxiliaries, the bounds of each given by its place. Where the list has no room left, they are counted.
    pub fn bounds<L: Fn(usize) -> i64, U: Fn(usize) -> i64>(&mut self, n: usize, lower: L, upper: U)
        requires few { n ≤ Limit.terms }
        requires lowers { (k : ℕ) → k < n → L.pre lower k }
        requires uppers { (k : ℕ) → k < n → U.pre upper k }
        ensures { (l u : ℕ → ℤ) → Gives n (L.post lower) l → Gives n (U.post upper) u → Writes self.old self.new (many (λ k. bound (l k) (u k) ∷ []) n) }
    {
        if self.out.len() <= self.laid.words {
            let lowers = all_fit(n, lower);
            let uppers = all_fit(n, upper);
            self.count(2 * n, n, 0, lowers & uppers);
            return;
        }
        let mut writer = Writer {
            out: &mut *self.out,
            laid: self.laid,
        };
        for k in 0..n {
            writer.bound(lower(k), upper(k));
        }
        self.laid = writer.laid;
    }

    // The bounds of n bits. Where the list has no room left, they are counted, and none is tested.
    pub fn bits(&mut self, n: usize)
        requires { n ≤ Limit.terms }
        ensures { Writes self.old self.new (many bit_at n) }
    {
        if self.out.len() <= self.laid.words {
            self.count(2 * n, n, 0, true);
            return;
        }
        self.bounds(n, |_| 0, |_| 1);
    }

    // n products: from z on, of the variables from place base on and those from b on. Where the list has no room left, they are counted.
    pub fn products(&mut self, args: &[u32], base: usize, z: usize, b: usize, n: usize)
        requires { (n ≤ Limit.terms) × (base < 1000000000000) × (z < 1000000000000) × (b < 1000000000000) }
        ensures { Writes self.old self.new (many (product_at args.now base z b) n) }
    {
        if self.out.len() <= self.laid.words {
            self.count(4 * n, 0, n, true);
            return;
        }
        let mut writer = Writer {
            out: &mut *self.out,
            laid: self.laid,
        };
        for k in 0..n {
            writer.times(z + k, var_at(args, base + k), b + k);
        }
        self.laid = writer.laid;
    }

    // n rows x − m ≤ 0, x the variables from place base on; m − x ≤ 0, where it is not `up`. Where the list has no room left, they are counted; where there is room for all of them, their words are put with no further test.
    // The flag stays: by two closures for the lesser and the larger variable, as `choiceblocks::rows::first_only` takes, `array_bool_and`, which has no flag, would carry their facts too, and be no plainer.
    pub fn order(&mut self, args: &[u32], base: usize, m: usize, n: usize, up: bool)
        requires { (n ≤ Limit.terms) × (base < 1000000000000) }
        ensures { Writes self.old self.new (many (order_at args.now base m up) n) }
    {
        if self.out.len() <= self.laid.words {
            self.count(6 * n, 0, n, true);
            return;
        }
        if 6 * n <= self.out.len() - self.laid.words {
            put_order(self.out, self.laid.words, args, base, m, n, up);
            self.count(6 * n, 0, n, true);
            return;
        }
        let mut writer = Writer {
            out: &mut *self.out,
            laid: self.laid,
        };
        for k in 0..n {
            let x = var_at(args, base + k);
            writer.row(
                Kind::AtMost,
                &[
                    Term::new(1, first_if(up, x, m)),
                    Term::new(-1, first_if(up, m, x)),
                ],
                0,
            );
        }
        self.laid = writer.laid;
    }
}

// x; y, where it is not `up`. It stays a function: without it each row that turns round by the flag would be written twice.
pub fn first_if(up: bool, x: usize, y: usize) -> usize
    ensures { result ≡ (x if up else y) }
{
    if up { x } else { y }
}
