// FlatZinc carried over to the words of a model.
ghost use Rattle.std.specs.Prelude.{IfOk};
ghost use Rattle.flatzinc.specs.Seen.{flatzinc};
ghost use Rattle.flattening.specs.Promise.{Promise};
ghost use Rattle.flattening.specs.Numbered.{IsNumberedOf};

use crate::booleans::{boolean_givens, boolean_items};
use crate::calls::calls_of_all;
use crate::variables::model_variables;
use flatconstants::number::{Numbered, number};
use flatconstants::typed::all_typed;
use flatsplitting::split_lists;
use flatwords::{fits, model_words};
use flatzinc::FlatZinc;
use flatzinc::trouble::Trouble;
use std::alloc::Global;

fn fault(alloc: Global, message: &str) -> Trouble {
    Trouble::told(String::from_str(alloc, message))
}

// The variables and calls of FlatZinc, with constants.
fn numbered_of(alloc: Global, all: &FlatZinc) -> Result<Numbered, Trouble>
    ensures { IfOk result (IsNumberedOf (flatzinc all.now)) }
{
    if !boolean_givens(&all.variables) || !boolean_items(&all.variables, &all.constraints) {
        return Err(fault(alloc, "an argument is not Boolean where one is due"));
    }
    let calls = calls_of_all(alloc, all)?;
    let numbered = number(alloc, model_variables(alloc, &all.variables)?, &calls)?;
    if !all_typed(&numbered.variables, &numbered.calls) {
        return Err(fault(alloc, "an argument has the wrong type"));
    }
    Ok(numbered)
}

// The words of its model.
pub fn carried(alloc: Global, all: &FlatZinc) -> Result<Vec<u32>, Trouble>
    ensures { IfOk result (λ ws. Promise (flatzinc all.now) ws.items) }
{
    let Numbered { variables, calls } = numbered_of(alloc, all)?;
    let model = split_lists(alloc, variables, calls)?;
    if !fits(&model.variables, &model.calls) {
        return Err(fault(alloc, "a number, a list or a model that is too large"));
    }
    Ok(model_words(alloc, &model.variables, &model.calls)?)
}
