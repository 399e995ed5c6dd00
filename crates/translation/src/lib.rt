// Translate: the words of a model's row system.
#![tactic(auto)]

ghost use Rattle.std.specs.Prelude.{◌≡◌, ◌≤◌, length, take, IfOk};
ghost use Rattle.words.specs.Faults.{written_of};
ghost use Rattle.rules.specs.Translate.{translate as translate_answer, translated};
ghost use Rattle.rules.specs.Translation.{system_words};
ghost use Rattle.translation.specs.Shares.{Shares};

use checking::check_model;
use checking::read::ReadModel;
use words::fault::{Fault, Refusal};
use writing::write_system;

mod writing;

// Writes the words of the row system to the front of the output; a refusal changes nothing.
// A fault of the whole input or output has place 0, as the documents say: the number is the answer, and no Option of a place.
pub fn translate(ws: &[u32], out: &mut [u32]) -> Result<usize, Refusal>
    ensures answer { written_of result ≡ translate_answer ws.now (length out.old) }
    ensures output { out.new ≡ translated ws.now out.old }
    ensures room { IfOk result (λ n. n ≤ length out.new) }
    ensures front { IfOk result (λ n. take n out.new ≡ system_words ws.now) }
    ensures shared { Shares ws.now (written_of result) out.new }
{
    let mut read = ReadModel::of(ws);
    let counts = check_model(&mut read)?;
    if out.len() < counts.words {
        return Err(Refusal {
            fault: Fault::OutputTooShort,
            place: 0,
        });
    }
    write_system(&read, out);
    Ok(counts.words)
}
