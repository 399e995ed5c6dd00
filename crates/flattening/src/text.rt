// A FlatZinc text carried over to the words of a model.
ghost use Rattle.std.specs.Prelude.{IfOk};
ghost use Rattle.flattening.specs.CarriedOver.{CarriedOver};

use crate::carry::carried;
use crate::read::read;
use flatnames::finished;
use flatzinc::trouble::Trouble;
use std::alloc::Global;

// The words of its model, or what is wrong with the text.
pub fn words_of_text(alloc: Global, bytes: &[u8]) -> Result<Vec<u32>, Trouble>
    ensures { IfOk result (λ ws. CarriedOver bytes.now ws.items) }
{
    let state = read(alloc, bytes)?;
    let (all, _) = finished(alloc, state)?;
    carried(alloc, &all)
}
