// An instance whose values are near 0, so that products and sums of them do not wrap.
ghost use Rattle.std.specs.Prelude.{◌≡◌, ◌<◌, ◌≤◌, nat_abs};
ghost use Rattle.integers.specs.Number.{◌⊗◌};
ghost use Rattle.integers.specs.Terms.{value, sum};
ghost use Rattle.words.specs.Small.{Near, Small};
ghost use Rattle.models.specs.Model.{var, num, terms};

use crate::instance::Instance;
use crate::{num_at, past_at, size_at};
use integers::{plus, times};

// An instance, each of whose values is near 0.
#[derive(Clone, Copy)]
pub struct NearInstance<'a> {
    pub instance: Instance<'a>,
    ghost small: { Small instance.values.now },
}

impl<'a> NearInstance<'a> {
    // The value of the variable at place i, as an instance has it, with the fact of its size.
    #[tactic(auto, unfolding(integers::specs::Terms::value))]
    pub fn value(&self, i: usize) -> i64
        ensures value { result ≡ value self.now.instance.values.now (var self.now.instance.args.now i) }
        ensures near { Near result }
    {
        self.instance.value(i)
    }

    // The product of the number at place a and the value of the variable at place x.
    pub fn product(&self, a: usize, x: usize) -> i64
        ensures value { result ≡ num self.now.instance.args.now a ⊗ value self.now.instance.values.now (var self.now.instance.args.now x) }
        ensures size { nat_abs result ≤ 18014398509481984 }
    {
        times(num_at(self.instance.args, a), self.value(x))
    }

    // The sum of the terms whose length word is at place i.
    #[tactic(auto, unfolding(integers::specs::Lists::list_of, integers::specs::Terms::sum, models::specs::Model::terms), using(crate::proofs::Places::passed))]
    pub fn sum(&self, i: usize) -> i64
        requires { i < 1099511627776 }
        ensures value { result ≡ sum (value self.now.instance.values.now) (terms self.now.instance.args.now i) }
        ensures size { nat_abs result ≤ 576460752303423488 }
    {
        let n = size_at(self.instance.args, i);
        let variables = past_at(self.instance.args, i);
        let mut total: i64 = 0;
        for k in 0..n {
            total = plus(total, self.product(i + 1 + k, variables + k));
        }
        total
    }
}
