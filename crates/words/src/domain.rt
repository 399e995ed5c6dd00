// The bounds of a variable, as a value whose type says that they are no farther from 0 than signed payloads are.
ghost use Rattle.std.specs.Prelude.{◌≡◌};
ghost use Rattle.integers.specs.Bounds.{◌to◌, bounds_in};
ghost use Rattle.words.specs.Small.{Near};

use crate::list::at_or;
use std::marker::Model;

#[repr(C)]
#[derive(Clone, Copy, Debug, PartialEq, Eq)]
pub struct Domain {
    lower: i64,
    upper: i64,
}

impl Model for Domain {
    ghost use Rattle.integers.specs.declared.Bounds.{Bounds};
    ghost use Rattle.integers.specs.Bounds.{◌to◌};
    ghost use Rattle.words.specs.Small.{Near};

    ghost Value = { Bounds };

    ghost view = { λ d. d.lower to d.upper };

    ghost invariant = { λ d. Near d.lower × Near d.upper };

    ghost inverse = { λ B. record { lower = B.lower; upper = B.upper } };
}

impl Domain {
    pub fn new(lower: i64, upper: i64) -> Domain
        requires { Near lower × Near upper }
        ensures { result ≡ lower to upper }
    {
        Domain { lower, upper }
    }

    pub fn lower(self) -> i64
        ensures value { result ≡ self.lower }
        ensures near { Near result }
    {
        self.lower
    }

    pub fn upper(self) -> i64
        ensures value { result ≡ self.upper }
        ensures near { Near result }
    {
        self.upper
    }
}

// The bounds of variable v in a lent list, 0 and 0 past the last one.
#[tactic(auto, unfolding(integers::specs::Bounds::bounds_in))]
pub fn domain_of(domains: &[Domain], v: usize) -> Domain
    ensures { result ≡ bounds_in domains.now v }
{
    at_or(domains, v, Domain { lower: 0, upper: 0 })
}
