// Which builtin lies behind a failed row.
#![tactic(auto)]

ghost use Rattle.std.specs.Prelude.{◌≡◌};
ghost use Rattle.reasons.specs.Reason.{reason as reason_answer};
ghost use Rattle.reasons.specs.Behind.{TrueReason};
ghost use Rattle.reasoning.specs.Told.{told};
ghost use Rattle.reasoning.specs.Walks.{CheckedModel};

use answer::Reason;
use checking::check_model;
use checking::read::ReadModel;
use variables::first_out_of_bounds;
use walks::{first_failing, walk};
use words::answer::Verdict;
use words::fault::{Fault, Refusal};

pub mod answer;
mod one_block;
mod rows;
mod walks;

// What is said of one block, and what it counts.
#[derive(Clone, Copy, Debug, PartialEq, Eq)]
pub struct Said {
    pub said: Verdict,
    pub auxiliaries: usize,
    pub rows: usize,
}

// Where a walk over the blocks stops: what is said there, and the constraint whose block says it.
// No Option of it: what is said tells whether the walk stopped. Where it is "holds" the walk did not, and no one reads the constraint; an Option would have that case twice, and be no plainer.
#[derive(Clone, Copy, Debug, PartialEq, Eq)]
pub struct Stopped {
    pub said: Verdict,
    pub constraint: usize,
}

// Of a model that passes the check, with this number of auxiliaries.
fn reason_passed(read: &ReadModel, values: &[i32], added: usize) -> Result<Reason, Refusal>
    requires { CheckedModel read.now added }
    ensures { told result ≡ reason_answer read.now.ws.now values.now }
{
    let sources = read.model.variables;
    if values.len() != sources + added {
        return Err(Refusal {
            fault: Fault::WrongValueCount,
            place: 0,
        });
    }
    let found = first_out_of_bounds(read.ws, &values[..sources]);
    if let Verdict::OutOfBounds(i) = found {
        return Ok(Reason::OutOfBounds(i));
    }
    let stopped = walk(read, values, true);
    if let Verdict::OutOfBounds(i) = stopped.said {
        return Ok(Reason::OutOfBounds(i));
    }
    Ok(first_failing(read, values))
}

// The first failing row, the constraint whose block holds it, and whether its builtin is true; faults and bounds come first.
pub fn reason(ws: &[u32], values: &[i32]) -> Result<Reason, Refusal>
    ensures answer { told result ≡ reason_answer ws.now values.now }
    ensures behind { TrueReason ws.now values.now (told result) }
{
    let mut read = ReadModel::of(ws);
    let counts = check_model(&mut read)?;
    reason_passed(&read, values, counts.auxiliaries)
}
