// The variables of a model that the variables of FlatZinc become.
ghost use Rattle.std.specs.Prelude.{◌≡◌, map, IfOk};
ghost use Rattle.flattening.specs.Variables.{model_variable};

use crate::booleans::is_bools;
use flatrewriting::variables::bounds_of_domain;
use flatzinc::{Declared, ModelVariable};
use std::alloc::{AllocError, Global};

fn model_variable(declared: &Declared) -> ModelVariable
    ensures { result ≡ model_variable declared.now }
{
    ModelVariable {
        is_boolean: is_bools(&declared.domain),
        bounds: bounds_of_domain(&declared.domain),
    }
}

pub fn model_variables(
    alloc: Global,
    variables: &[Declared],
) -> Result<Vec<ModelVariable>, AllocError>
    ensures { IfOk result (λ vs. vs.items ≡ map model_variable variables.now) }
{
    let mut out = Vec::new(alloc);
    for declared in variables {
        out.push(model_variable(declared))?;
    }
    Ok(out)
}
