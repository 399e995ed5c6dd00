// A constraint's arguments under values of the variables: values of the variables among them, and tests over its lists.
ghost use Rattle.std.specs.Prelude.{◌≡◌, ◌<◌};
ghost use Rattle.std.specs.Int.Signed.{le_z};
ghost use Rattle.integers.specs.Choice.{◌if◌else◌};
ghost use Rattle.integers.specs.Number.{◌≟◌};
ghost use Rattle.integers.specs.Lists.{all, any, how_many};
ghost use Rattle.integers.specs.Terms.{value};
ghost use Rattle.models.specs.Model.{var, vars};
ghost use Rattle.models.specs.Meaning.{on};

use crate::{size_at, var_at};
use integers::equal;
use integers::test::in_order;
use words::value_at;

// The words after a constraint's head, and the values of the variables.
#[derive(Clone, Copy)]
pub struct Instance<'a> {
    pub args: &'a [u32],
    pub values: &'a [i32],
}

impl<'a> Instance<'a> {
    // The value of the variable at place i.
    #[tactic(auto, unfolding(integers::specs::Terms::value))]
    pub fn value(&self, i: usize) -> i64
        ensures { result ≡ value self.now.values.now (var self.now.args.now i) }
    {
        value_at(self.values, var_at(self.args, i))
    }

    // Whether the variable at place i is 1.
    #[tactic(auto, unfolding(models::specs::Meaning::on))]
    pub fn is_on(&self, i: usize) -> bool
        ensures { result ≡ on (value self.now.values.now) (var self.now.args.now i) }
    {
        equal(self.value(i), 1)
    }

    // How many variables of the list at place i have the value v.
    // The loops over a list's places, here and in none_past, is_member and NearInstance::sum, share the `for`; one walk with a closure would ask for a law of each
    // closure and be no plainer.
    #[tactic(auto, unfolding(integers::specs::Lists::list_of, integers::specs::Lists::how_many, models::specs::Model::vars), using(crate::proofs::Places::passed))]
    pub fn how_many(&self, i: usize, v: i64) -> usize
        requires { i < 1099511627776 }
        ensures { result ≡ how_many (λ x. value self.now.values.now x ≟ v) (vars self.now.args.now i) }
    {
        let n = size_at(self.args, i);
        let mut found = 0;
        for k in 0..n {
            found += equal(self.value(i + 1 + k), v) as usize;
        }
        found
    }

    // Whether no variable of the list at place i has a value above m; below m, where it is not `up`.
    // `up` stays a flag: the clause is a choice by it, and two functions would be twins and no plainer.
    #[tactic(auto, unfolding(integers::specs::Lists::list_of, integers::specs::Lists::all, models::specs::Model::vars), using(crate::proofs::Places::passed))]
    pub fn none_past(&self, i: usize, m: i64, up: bool) -> bool
        requires { i < 1099511627776 }
        ensures { result ≡ all (λ x. le_z (value self.now.values.now x) m if up else le_z m (value self.now.values.now x)) (vars self.now.args.now i) }
    {
        let n = size_at(self.args, i);
        let mut so_far = true;
        for k in 0..n {
            so_far &= in_order(self.value(i + 1 + k), m, up);
        }
        so_far
    }

    // Whether some variable of the list at place i has the value v.
    #[tactic(auto, using(crate::proofs::Places::counted))]
    pub fn any_equal(&self, i: usize, v: i64) -> bool
        requires { i < 1099511627776 }
        ensures { result ≡ any (λ x. value self.now.values.now x ≟ v) (vars self.now.args.now i) }
    {
        0 < self.how_many(i, v)
    }

    // Whether all variables of the list at place i are 1.
    #[tactic(auto, unfolding(models::specs::Meaning::on, models::specs::Model::vars), using(crate::proofs::Places::counted))]
    pub fn all_on(&self, i: usize) -> bool
        requires { i < 1099511627776 }
        ensures { result ≡ all (on (value self.now.values.now)) (vars self.now.args.now i) }
    {
        self.how_many(i, 1) == size_at(self.args, i)
    }
}
