// A model and what is kept of it, in fixed memory: the calls that check first lend it on.
use integers::Bounds;
use linearsums::sum_at;
use modelreading::Model;
use models::constraint::Constraint;
use words::domain::Domain;

// The words of a model; what it has, the places of its constraints, the bounds of its variables, how many constraints encode each, and L and U of its constraints.
// The lists are arrays for the most that a model has, with the counts in `model`: no heap; each is filled by a call of its own that is lent the one list, so arrays of records would be no plainer.
// The walks `checking::check_read`, `translation::writing::write_blocks` and `reasoning::walks::walk` write their `Context` out: a method that makes it was tried, and the borrow checker does not cover it.
#[derive(Drop)]
pub struct ReadModel<'a> {
    pub ws: &'a [u32],
    pub model: Model,
    pub heads: [usize; 256],
    pub domains: [Domain; 256],
    pub uses: [usize; 256],
    pub sums: [Bounds; 256],
}

impl<'a> ReadModel<'a> {
    ghost use Rattle.std.specs.Prelude.{◌≡◌, ◌<◌, get_or};
    ghost use Rattle.integers.specs.Bounds.{bounds_in};
    ghost use Rattle.models.specs.Codes.{code_number};
    ghost use Rattle.models.specs.Model.{headed};
    ghost use Rattle.checking.specs.ReadModel.{Unread, Listed};

    // Of words that were not read yet: lists of 256 zeros; no Option of the model, which `check_model` lays over this memory before anything reads it.
    pub fn of(ws: &'a [u32]) -> ReadModel<'a>
        ensures words { result.ws.now ≡ ws.now }
        ensures unread { Unread result }
    {
        ReadModel {
            ws,
            model: Model {
                variables: 0,
                sources: 0,
                constraints: 0,
            },
            heads: [0; 256],
            domains: [Domain::new(0, 0); 256],
            uses: [0; 256],
            sums: [Bounds { lower: 0, upper: 0 }; 256],
        }
    }

    // Constraint k.
    pub fn constraint(&self, k: usize) -> Constraint<'a>
        requires { Listed self.now × (k < self.now.model.constraints) }
        ensures code { code_number result.code ≡ (headed self.now.ws.now (get_or self.now.heads k 0)).code }
        ensures arguments { result.args.now ≡ (headed self.now.ws.now (get_or self.now.heads k 0)).arguments }
    {
        match Constraint::at(self.ws, self.heads[k]) {
            Some(constraint) => constraint,
            // a model that was read has no other code
            None => unreachable!(),
        }
    }

    // L and U of constraint k.
    pub fn sum(&self, k: usize) -> Bounds
        ensures { result ≡ bounds_in self.now.sums k }
    {
        sum_at(&self.sums, k)
    }
}
