// An example of a caller: from a model, or its text, and values of its variables to the model's row system and the solution of it that has these values.
// Its proof needs the clauses of the calls and nothing else.
#![tactic(auto)]

ghost use Rattle.planner.specs.SolvesRows.{SolvesRows};

use filling::{Filling, fill};
use texts::read_text;
use translation::translate;
use words::fault::Refusal;
use words::limit;

// What comes of a model and values of its variables.
#[derive(Clone, Copy, Debug, PartialEq, Eq)]
pub enum Plan {
    // how many words of the row system were written, and how many values, which satisfy it
    Rows { words: usize, values: usize },
    // fill says that the values do not hold
    NoSolution,
}

// Writes the row system of a model, and the values with those of the auxiliaries where they are a solution of the model.
pub fn plan_model(
    model: &[u32],
    values: &[i32],
    rows: &mut [u32],
    filled: &mut [i32],
) -> Result<Plan, Refusal>
    ensures { SolvesRows result rows.new filled.new }
{
    let words = translate(model, rows)?;
    match fill(model, values, filled)? {
        Filling::Values(n) => Ok(Plan::Rows { words, values: n }),
        _ => Ok(Plan::NoSolution),
    }
}

// The same of a model's text.
pub fn plan_text(
    text: &[u8],
    values: &[i32],
    rows: &mut [u32],
    filled: &mut [i32],
) -> Result<Plan, Refusal>
    ensures { SolvesRows result rows.new filled.new }
{
    let mut model = [0u32; limit::MODEL_WORDS];
    let n = read_text(text, &mut model)?;
    plan_model(&model[..n], values, rows, filled)
}
