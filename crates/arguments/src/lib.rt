// The arguments of a constraint, read from the words after its head: variables, numbers, lists, and values, tests and sums over them.
#![tactic(auto)]

ghost use Rattle.std.specs.Prelude.{◌≡◌, ◌+◌, ◌<◌, ◌≤◌, nat_abs};
ghost use Rattle.integers.specs.Number.{count};
ghost use Rattle.words.specs.Limit as Limit;
ghost use Rattle.words.specs.Small.{Near};
ghost use Rattle.models.specs.Model.{var, num, size, exponent_at, past, past_terms, nums};
ghost use Rattle.models.specs.Meaning.{member};

pub mod instance;
pub mod near;

use integers::equal;
use words::limit;
use words::word::Word;

// The variable at place i.
#[tactic(auto, unfolding(models::specs::Model::var))]
pub fn var_at(args: &[u32], i: usize) -> usize
    ensures { result ≡ var args.now i }
{
    Word::at(args, i).payload()
}

// The number at place i.
// That it is near 0 stays a clause, here and of NearInstance::value and Domain's bounds: a type of such numbers would be opened by each sum and be no plainer.
#[tactic(auto, unfolding(models::specs::Model::num))]
pub fn num_at(args: &[u32], i: usize) -> i64
    ensures value { result ≡ num args.now i }
    ensures near { Near result }
{
    Word::at(args, i).signed()
}

// The length of the list whose length word is at place i.
#[tactic(auto, unfolding(models::specs::Model::size))]
pub fn size_at(args: &[u32], i: usize) -> usize
    ensures value { result ≡ size args.now i }
    ensures size { result ≤ Limit.list_length }
{
    var_at(args, i).min(limit::LIST_LENGTH)
}

// The exponent at place i. `size_at` has the other limit: one function of both would be over a limit that no definition has, and be no plainer.
#[tactic(auto, unfolding(models::specs::Model::exponent_at))]
pub fn exponent_at(args: &[u32], i: usize) -> usize
    ensures value { result ≡ exponent_at args.now i }
    ensures size { result ≤ Limit.exponent }
{
    var_at(args, i).min(limit::EXPONENT)
}

// The place after the list whose length word is at place i.
// A place below 2^40, here, in Instance and in NearInstance, has no type of its own: each use adds to it, so the type would be made anew each time and be no plainer.
#[tactic(auto, unfolding(models::specs::Model::past))]
pub fn past_at(args: &[u32], i: usize) -> usize
    requires { i < 1099511627776 }
    ensures value { result ≡ past args.now i }
    ensures size { result ≤ i + 1 + Limit.list_length }
{
    i + 1 + size_at(args, i)
}

// The place after the parallel lists whose length word is at place i.
#[tactic(auto, unfolding(models::specs::Model::past_terms))]
pub fn past_terms_at(args: &[u32], i: usize) -> usize
    requires { i < 1099511627776 }
    ensures value { result ≡ past_terms args.now i }
    ensures size { result ≤ i + 1 + Limit.list_length + Limit.list_length }
{
    past_at(args, i) + size_at(args, i)
}

// A number that is not negative, as a count; 0 for a negative one.
#[tactic(auto, unfolding(integers::specs::Number::count))]
pub fn count_of(v: i64) -> usize
    ensures value { result ≡ count v }
    ensures size { result ≤ nat_abs v }
{
    usize::try_from(v).unwrap_or(0)
}

// Whether x is one of the numbers of the list at place i.
#[tactic(auto, unfolding(integers::specs::Lists::list_of, integers::specs::Lists::any, models::specs::Model::nums, models::specs::Meaning::member), using(crate::proofs::Places::passed))]
pub fn is_member(args: &[u32], i: usize, x: i64) -> bool
    requires { i < 1099511627776 }
    ensures { result ≡ member x (nums args.now i) }
{
    let n = size_at(args, i);
    let mut found = false;
    for k in 0..n {
        found |= equal(x, num_at(args, i + 1 + k));
    }
    found
}
