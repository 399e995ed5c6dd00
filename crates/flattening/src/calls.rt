// The calls that the variables and the constraints of FlatZinc become.
ghost use Rattle.std.specs.Prelude.{◌≡◌, map, IfOk};
ghost use Rattle.flatzinc.specs.Seen.{declared, flatzinc, item};
ghost use Rattle.flatzinc.specs.Calls.{placed_all};
ghost use Rattle.flattening.specs.Flattened.{constraint_items, joined, variable_items};
ghost use Rattle.flattening.specs.Placed.{PlacesAll};

use flatrewriting::items::calls_of;
use flatrewriting::variables::calls_of_variable;
use flatzinc::trouble::Trouble;
use flatzinc::{Call, Declared, FlatZinc, Item};
use std::alloc::{AllocError, Global};

fn variable_calls(alloc: Global, variables: &[Declared]) -> Result<Vec<Call>, AllocError>
    ensures { IfOk result (λ cs. placed_all cs.items ≡ variable_items 0 (map declared variables.now)) }
{
    let mut calls = Vec::new(alloc);
    for (number, variable) in variables.iter().enumerate() {
        let mut more = calls_of_variable(alloc, number, variable)?;
        calls.append(&mut more)?;
    }
    Ok(calls)
}

fn constraint_calls(alloc: Global, constraints: &[Item]) -> Result<Vec<Call>, Trouble>
    ensures { IfOk result (λ cs. PlacesAll cs.items (constraint_items (map item constraints.now))) }
{
    let mut calls = Vec::new(alloc);
    for constraint in constraints {
        let mut more = calls_of(alloc, constraint)?;
        calls.append(&mut more)?;
    }
    Ok(calls)
}

// The calls of all that FlatZinc says: of its variables, then of its constraints.
pub fn calls_of_all(alloc: Global, all: &FlatZinc) -> Result<Vec<Call>, Trouble>
    ensures { let F = flatzinc all.now in IfOk result (λ cs. PlacesAll cs.items (joined (variable_items 0 F.variables) (constraint_items F.constraints))) }
{
    let mut calls = variable_calls(alloc, &all.variables)?;
    let mut more = constraint_calls(alloc, &all.constraints)?;
    calls.append(&mut more)?;
    Ok(calls)
}
