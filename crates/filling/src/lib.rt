// Fill: the values of a model's variables and those of its row system's auxiliaries.
#![tactic(auto)]

ghost use Rattle.std.specs.Prelude.{◌≡◌, ◌++◌, ◌+◌, ◌<◌, ◌≤◌, length, take};
ghost use Rattle.words.specs.Overlay.{overlay};
ghost use Rattle.rules.specs.Translation.{auxiliaries, picks};
ghost use Rattle.rules.specs.Fill.{fill as fill_answer, filled};
ghost use Rattle.sharing.specs.SharedSolutions.{Passes, SatisfiesModel};
ghost use Rattle.checking.specs.ReadModel.{Listed};
ghost use Rattle.picking.specs.Output.{Puts};
ghost use Rattle.filling.specs.Filled.{handed, IfFilled};
ghost use Rattle.filling.specs.PicksWritable.{PicksWritable};
ghost use Rattle.filling.specs.Satisfied.{Satisfied};
ghost use Rattle.filling.specs.HandsOver.{HandsOver};

use checking::check_model;
use checking::read::ReadModel;
use encodings::record_encoding;
use modeljudge::judge_read;
use picking::{Output, pick_constraint};
use words::answer::Verdict;
use words::fault::{Fault, Refusal};
use words::limit;
use words::list::lay;

// What fill answers where it does not refuse.
// It is no `Verdict`: where that holds, fill answers how many values it wrote. The other two cases are turned over in one place, so that a `From` would be no plainer.
#[derive(Clone, Copy, Debug, PartialEq, Eq)]
pub enum Filling {
    // how many values it wrote
    Values(usize),
    // the first variable out of bounds, counted from 0
    OutOfBounds(usize),
    // the first false constraint, counted from 0
    False(usize),
}

// The auxiliaries of each constraint go over the output one after another, from the place of the first one's number on, so that the place of each is its number.
// A `for` with its own body, and no closure for all walks: see `encodings::count_uses`.
fn write_picks(read: &ReadModel, values: &[i32], output: &mut Output)
    requires { PicksWritable read.now values.now output.old }
    ensures { Puts output.old (picks read.now.ws.now values.now) output.new }
{
    // fixed memory: a number for each variable that a model may have
    let mut encoded = [0usize; limit::VARIABLES];
    for k in 0..read.model.constraints {
        let constraint = read.constraint(k);
        let first = output.at;
        pick_constraint(
            output,
            &constraint,
            values,
            &read.domains,
            &read.uses,
            &encoded,
        );
        record_encoding(&mut encoded, &constraint, &read.uses, first);
    }
}

// The values, and after them the auxiliaries.
#[tactic(auto, using(crate::proofs::Ranges::after_values))]
fn write_filled(read: &ReadModel, values: &[i32], out: &mut [i32])
    requires { Listed read.now × Passes read.now.ws.now × SatisfiesModel read.now.ws.now values.now }
    ensures { out.new ≡ overlay out.old 0 (values.now ++ picks read.now.ws.now values.now) }
{
    lay(out, 0, values);
    let mut output = Output {
        list: out,
        at: values.len(),
    };
    write_picks(read, values, &mut output);
}

// Of a model that passes the check, with this number of auxiliaries. It is not taken in where it is called: the record of `write_picks` would be on the stack while the model is checked.
#[inline(never)]
fn fill_passed(
    read: &ReadModel,
    values: &[i32],
    out: &mut [i32],
    added: usize,
) -> Result<Filling, Refusal>
    requires { Listed read.now × Passes read.now.ws.now × (added ≡ length (auxiliaries read.now.ws.now)) }
    ensures answer { handed result ≡ fill_answer read.now.ws.now values.now (length out.old) }
    ensures output { out.new ≡ filled read.now.ws.now values.now out.old }
    ensures room { IfFilled result (λ n. n ≤ length out.new) }
    ensures front { IfFilled result (λ n. take n out.new ≡ values.now ++ picks read.now.ws.now values.now) }
    ensures satisfied { Satisfied read.now.ws.now (handed result) out.new }
{
    let n = read.model.variables;
    if values.len() != n {
        return Err(Refusal {
            fault: Fault::WrongValueCount,
            place: 0,
        });
    }
    if out.len() < n + added {
        return Err(Refusal {
            fault: Fault::OutputTooShort,
            place: 0,
        });
    }
    // `judge_read` takes what a reading answers, as judge_model has it; a second function that takes the model would have its clause again, and be no plainer
    let verdict = judge_read(Ok(read.model), read.ws, &read.heads, values)?;
    match verdict {
        Verdict::Holds => {
            write_filled(read, values, out);
            Ok(Filling::Values(n + added))
        }
        Verdict::OutOfBounds(i) => Ok(Filling::OutOfBounds(i)),
        Verdict::False(i) => Ok(Filling::False(i)),
    }
}

// Where judge-model says "holds", the values and the auxiliaries go to the front of the output; else nothing changes.
pub fn fill(ws: &[u32], values: &[i32], out: &mut [i32]) -> Result<Filling, Refusal>
    ensures answer { handed result ≡ fill_answer ws.now values.now (length out.old) }
    ensures output { out.new ≡ filled ws.now values.now out.old }
    ensures room { IfFilled result (λ n. n ≤ length out.new) }
    ensures front { IfFilled result (λ n. take n out.new ≡ values.now ++ picks ws.now values.now) }
    ensures satisfied { Satisfied ws.now (handed result) out.new }
    ensures completes { HandsOver ws.now values.now (handed result) out.old out.new }
{
    let mut read = ReadModel::of(ws);
    let counts = check_model(&mut read)?;
    fill_passed(&read, values, out, counts.auxiliaries)
}
