// Signed numbers of 64 bits whose sums and products are those of whole numbers; bounds.
#![tactic(auto)]

ghost use Rattle.std.specs.Prelude.{◌≡◌, ◌+◌, ◌*◌, ◌<◌, ◌≤◌, nat_abs};
ghost use Rattle.std.specs.Int.Signed.{quot_z, rem_z};
ghost use Rattle.integers.specs.Choice.{◌if◌else◌};
ghost use Rattle.integers.specs.Number.{◌⊕◌, ◌⊖◌, ◌⊗◌, neg, min_z, max_z, cut, ◌≟◌};

pub mod test;

// The bounds of a variable or of a sum, which may lie far from 0: `words::domain::Domain` is the type of those that are near 0, and its view is this one.
#[repr(C)]
#[derive(Clone, Copy, Debug, PartialEq, Eq)]
pub struct Bounds {
    pub lower: i64,
    pub upper: i64,
}

// The sum.
pub fn plus(a: i64, b: i64) -> i64
    requires { nat_abs a + nat_abs b < 9223372036854775808 }
    ensures value { result ≡ a ⊕ b }
    ensures size { nat_abs result ≤ nat_abs a + nat_abs b }
{
    a + b
}

// The difference.
pub fn minus(a: i64, b: i64) -> i64
    requires { nat_abs a + nat_abs b < 9223372036854775808 }
    ensures value { result ≡ a ⊖ b }
    ensures size { nat_abs result ≤ nat_abs a + nat_abs b }
{
    a - b
}

// The product.
pub fn times(a: i64, b: i64) -> i64
    requires { nat_abs a * nat_abs b < 9223372036854775808 }
    ensures value { result ≡ a ⊗ b }
    ensures size { nat_abs result ≤ nat_abs a * nat_abs b }
{
    a * b
}

// The opposite.
#[tactic(auto, unfolding(crate::specs::Number::neg))]
pub fn opposite(a: i64) -> i64
    requires { nat_abs a < 9223372036854775808 }
    ensures value { result ≡ neg a }
    ensures size { nat_abs result ≤ nat_abs a }
{
    -a
}

// The quotient, cut towards zero.
// What is asked, here and of plus, minus, times and remainder, is of two values at once: a struct of both would be made for each call and be no plainer.
pub fn quotient(a: i64, d: i64) -> i64
    requires { (nat_abs a < 9223372036854775808) × (0 < nat_abs d) }
    ensures { result ≡ quot_z a d }
{
    a / d
}

// What the quotient leaves, with the sign of a.
pub fn remainder(a: i64, d: i64) -> i64
    requires { (nat_abs a < 9223372036854775808) × (0 < nat_abs d) }
    ensures { result ≡ rem_z a d }
{
    a % d
}

// The lesser of two. The library's `min` would be no plainer: it is stated by another definition.
#[tactic(auto, unfolding(crate::specs::Number::min_z))]
pub fn least(a: i64, b: i64) -> i64
    ensures { result ≡ min_z a b }
{
    a.min(b)
}

// The larger of two. The library's `max` would be no plainer: it is stated by another definition.
#[tactic(auto, unfolding(crate::specs::Number::max_z))]
pub fn largest(a: i64, b: i64) -> i64
    ensures { result ≡ max_z a b }
{
    a.max(b)
}

// The lesser or the larger of two, by the flag that a caller has: it would choose between `least` and `largest` itself and be no plainer.
#[tactic(auto, unfolding(crate::specs::Number::min_z, crate::specs::Number::max_z))]
pub fn pick(a: i64, b: i64, up: bool) -> i64
    ensures { result ≡ (max_z if up else min_z) a b }
{
    if up { a.max(b) } else { a.min(b) }
}

// A number cut to -most..most.
#[tactic(auto, unfolding(crate::specs::Number::cut))]
pub fn cut_to(most: i64, a: i64) -> i64
    requires { nat_abs most < 9223372036854775808 }
    ensures { result ≡ cut most a }
{
    least(most, largest(opposite(most), a))
}

// Whether two are equal. The library states `==` over bits: it is this test where the law `equal_bits` is named.
#[tactic(auto, using(crate::proofs::Fits::equal_bits))]
pub fn equal(a: i64, b: i64) -> bool
    ensures { result ≡ (a ≟ b) }
{
    a == b
}
