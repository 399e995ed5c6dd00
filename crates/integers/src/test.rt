// Tests of numbers, and what is made of tests.
ghost use Rattle.std.specs.Prelude.{◌≡◌};
ghost use Rattle.std.specs.Int.Signed.{le_z};
ghost use Rattle.integers.specs.Choice.{◌if◌else◌};

// Whether a is not above b; whether b is not above a, where it is not `up`. Two functions would be no plainer: the clause is the choice by the flag.
pub fn in_order(a: i64, b: i64, up: bool) -> bool
    ensures { result ≡ (le_z a b if up else le_z b a) }
{
    if up { a <= b } else { b <= a }
}

// 1 where the test is true, else 0. A cast in its place would be no plainer: the caller's proof goes by this clause.
pub fn one_if(test: bool) -> usize
    ensures { result ≡ (1 if test else 0) }
{
    test as usize
}
