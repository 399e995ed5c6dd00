// What the block of a constraint is laid by, beside the constraint.
ghost use Rattle.std.specs.Prelude.{◌<◌};
ghost use Rattle.encodings.specs.Uses.{Recorded};

use words::domain::Domain;

// The bounds of the variables, how many constraints encode each, the first bits of those that are encoded, and the number of the block's first auxiliary.
#[derive(Clone, Copy)]
pub struct Context<'a> {
    pub domains: &'a [Domain],
    pub uses: &'a [usize],
    pub encoded: &'a [usize],
    pub first: usize,
    ghost recorded: { Recorded encoded.now },
    ghost small: { first < 10000 },
}
