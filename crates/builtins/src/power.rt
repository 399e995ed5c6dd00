// Code 39: powers.
#![tactic(auto, unfolding(models::specs::Meaning::meaning))]

ghost use Rattle.std.specs.Prelude.{◌≡◌, ◌≤◌};
ghost use Rattle.integers.specs.Number.{cut};
ghost use Rattle.integers.specs.Terms.{value};
ghost use Rattle.words.specs.Small.{Near};
ghost use Rattle.models.specs.Builtin.{int_pow};
ghost use Rattle.models.specs.Meaning.{power, meaning};
ghost use Rattle.models.specs.Model.{var, exponent_at};
ghost use Rattle.builtins.specs.Coded.{far};

use arguments::exponent_at;
use arguments::near::NearInstance;
use integers::{cut_to, equal, times};

// No value is as far from 0.
const FAR: i64 = 268435456;

// A power from 1 on, cut to -FAR..FAR: by recursion on the exponent, which halves until it is 1, and no loop, as document 02 prescribes.
// `picking` writes each square where this cuts it; one function of both would take that step as a closure with its facts, and be no plainer.
#[tactic(auto)]
fn power_of(x: i64, k: usize) -> i64
    requires { Near x × (1 ≤ k) }
    ensures { result ≡ cut far (power x k) }
{
    if k < 2 {
        return x;
    }
    let half = power_of(x, k / 2);
    let square = cut_to(FAR, times(half, half));
    if k % 2 == 0 {
        return square;
    }
    cut_to(FAR, times(x, square))
}

// Whether int_pow is true.
#[tactic(auto, unfolding(models::specs::Meaning::meaning, models::specs::Meaning::power))]
pub fn int_pow(near: &NearInstance) -> bool
    ensures { let ws = near.now.instance.args.now in result ≡ meaning (value near.now.instance.values.now) (int_pow (var ws 0) (exponent_at ws 1) (var ws 2)) }
{
    let x = near.value(0);
    let z = near.value(2);
    match exponent_at(near.instance.args, 1) {
        0 => equal(1, z),
        k => equal(power_of(x, k), z),
    }
}
