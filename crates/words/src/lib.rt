// Words: their kind and payload, the faults, the limits; total reads, laying a list over a lent one; bounds of variables.
#![tactic(auto)]

ghost use Rattle.std.specs.Prelude.{◌≡◌};
ghost use Rattle.integers.specs.Terms.{value};
ghost use Rattle.words.specs.Word.{in_range};

pub mod answer;
pub mod check;
pub mod domain;
pub mod fault;
pub mod kind;
pub mod limit;
pub mod list;
pub mod word;

// Whether a number is in the range.
#[tactic(auto, unfolding(integers::specs::Bounds::within))]
pub fn in_range(v: i64) -> bool
    ensures { result ≡ in_range v }
{
    limit::LOWEST <= v && v <= limit::HIGHEST
}

// The value of a variable, 0 past the last one.
#[tactic(auto, unfolding(integers::specs::Terms::value))]
pub fn value_at(values: &[i32], x: usize) -> i64
    ensures { result ≡ value values.now x }
{
    list::at_or(values, x, 0) as i64
}
