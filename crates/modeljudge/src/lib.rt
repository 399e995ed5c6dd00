// Judge-model: whether values keep the bounds of a model, and its constraints are true of them.
#![tactic(auto)]

ghost use Rattle.std.specs.Prelude.{◌≡◌, length};
ghost use Rattle.integers.specs.Terms.{value};
ghost use Rattle.words.specs.Faults.{said_of, verdict_of};
ghost use Rattle.words.specs.Judge.{first_false};
ghost use Rattle.words.specs.Small.{Small};
ghost use Rattle.models.specs.JudgeModel.{judge_model};
ghost use Rattle.models.specs.Meaning.{meaning};
ghost use Rattle.models.specs.Model.{builtin, constraints};
ghost use Rattle.modelreading.specs.Seen.{Heads, Kept, read_of};

use builtins::holds;
use modelreading::{Model, read_model};
use models::constraint::Constraint;
use variables::judge_values;
use words::answer::Verdict;
use words::fault::Refusal;

// The first false constraint, else "holds"; the heads are the places of the constraints. A head of a number that no builtin has counts as true.
// The walks over constraints share the `for` and the constraint at a place; their bodies differ, so one walk with a closure would be no plainer.
#[tactic(auto, using(modelreading::proofs::Heads::heads_inside))]
pub fn first_false(ws: &[u32], heads: &[usize], values: &[i32]) -> Verdict
    requires { Heads ws.now heads.now (length heads.now) × Small values.now }
    ensures { said_of result ≡ first_false (λ c. meaning (value values.now) (builtin c)) 0 (constraints ws.now) }
{
    for (k, &place) in heads.iter().enumerate() {
        let Some(constraint) = Constraint::at(ws, place) else {
            continue;
        };
        if !holds(&constraint, values) {
            return Verdict::False(k);
        }
    }
    Verdict::Holds
}

// Of words that were read with this answer: the refusal, else fault 15, else the first variable out of bounds, else the first false constraint, else "holds".
// The places of the heads are fixed memory, and as many as the model that was read has.
pub fn judge_read(
    read: Result<Model, Refusal>,
    ws: &[u32],
    heads: &[usize; 256],
    values: &[i32],
) -> Result<Verdict, Refusal>
    requires { Kept ws.now heads.now (read_of read) }
    ensures { verdict_of result ≡ judge_model ws.now values.now }
{
    let model = read?;
    match judge_values(Ok(()), &ws[..model.sources], values)? {
        Verdict::Holds => Ok(first_false(ws, &heads[..model.constraints], values)),
        outside => Ok(outside),
    }
}

// "Holds", else the first variable out of bounds, else the first false constraint; a refusal comes first.
pub fn judge_model(ws: &[u32], values: &[i32]) -> Result<Verdict, Refusal>
    ensures { verdict_of result ≡ judge_model ws.now values.now }
{
    // fixed memory: a place for each constraint that a model may have
    let mut heads = [0; 256];
    let read = read_model(ws, &mut heads);
    judge_read(read, ws, &heads, values)
}
