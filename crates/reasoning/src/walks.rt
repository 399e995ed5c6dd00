// Block after block: the bounds of all auxiliaries, then the rows.
ghost use Rattle.std.specs.Prelude.{◌≡◌, false, length, take};
ghost use Rattle.integers.specs.Terms.{value};
ghost use Rattle.words.specs.Small.{Small};
ghost use Rattle.words.specs.Variables.{variables};
ghost use Rattle.reasons.specs.Reason.{explained, first_failing};
ghost use Rattle.reasoning.specs.Walks.{PassedModel, Stops};
ghost use Rattle.reasoning.specs.Told.{named};

use crate::Stopped;
use crate::answer::Reason;
use crate::one_block::judge_block;
use checking::read::ReadModel;
use encodings::context::Context;
use encodings::record_encoding;
use words::answer::Verdict;
use words::limit;

// More words than a block has, at most 2,800 (`block_words_most`), and its end word.
const BLOCK: usize = 3072;

// Block after block, until one says something: of the bounds of all auxiliaries, or of the rows. `bounds` is a flag, as in `judge_block`.
// A `for` with its own body, and no closure for all walks: see `encodings::count_uses`.
pub fn walk(read: &ReadModel, values: &[i32], bounds: bool) -> Stopped
    requires { PassedModel read.now values.now × (bounds ≡ false → Small values.now) }
    ensures { Stops bounds read.now.ws.now values.now result }
{
    let mut first = read.model.variables;
    let mut rows = 0;
    // fixed memory: a number for each variable that a model may have, and the words of a block
    let mut encoded = [0usize; limit::VARIABLES];
    let mut words = [0u32; BLOCK];
    for k in 0..read.model.constraints {
        let constraint = read.constraint(k);
        let context = Context {
            domains: &read.domains,
            uses: &read.uses,
            encoded: &encoded,
            first,
        };
        let sum = read.sum(k);
        let found = judge_block(&mut words, &constraint, sum, &context, values, rows, bounds);
        match found.said {
            Verdict::Holds => {}
            said => return Stopped {
                said,
                constraint: k,
            },
        }
        record_encoding(&mut encoded, &constraint, &read.uses, first);
        first += found.auxiliaries;
        rows += found.rows;
    }
    Stopped {
        said: Verdict::Holds,
        constraint: read.model.constraints,
    }
}

// The first row that fails, its constraint, and whether that builtin is true of the source values.
pub fn first_failing(read: &ReadModel, values: &[i32]) -> Reason
    requires { PassedModel read.now values.now × Small values.now }
    ensures { named result ≡ first_failing (value (take (length (variables read.now.ws.now)) values.now)) (value values.now) 0 0 (explained read.now.ws.now) }
{
    let stopped = walk(read, values, false);
    let Verdict::False(row) = stopped.said else {
        return Reason::Nothing;
    };
    let constraint = stopped.constraint;
    let holds = builtins::holds(
        &read.constraint(constraint),
        &values[..read.model.variables],
    );
    Reason::Because {
        row,
        constraint,
        holds,
    }
}
