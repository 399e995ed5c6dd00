// The variables of constants, and the clauses of Boolean ones.
ghost use Rattle.std.specs.Prelude.{◌≡◌, ◌+◌, ◌<◌, ◌++◌, length, map, OnOk};
ghost use Rattle.flatzinc.specs.Calls.{built_all};
ghost use Rattle.flatconstants.specs.Constants.{constant_clauses, clauses_from};
ghost use Rattle.flatconstants.specs.Numbers.{and_built, built_with, constant_variable};

use flatzinc::{Argument, Atom, Call, ModelVariable};
use integers::Bounds;
use models::code::Code;
use std::alloc::{AllocError, Global};

// The variable of a constant.
#[tactic(auto, unfolding(crate::specs::Numbers::constant_variable))]
fn constant_variable(constant: Atom) -> ModelVariable
    ensures { result ≡ constant_variable constant }
{
    match constant {
        Atom::Whole(number) => ModelVariable {
            is_boolean: false,
            bounds: Bounds {
                lower: number,
                upper: number,
            },
        },
        Atom::Truth(_) => ModelVariable {
            is_boolean: true,
            bounds: Bounds { lower: 0, upper: 1 },
        },
        Atom::Variable(_) => ModelVariable {
            is_boolean: false,
            bounds: Bounds { lower: 0, upper: 0 },
        },
    }
}

// Adds the variables of constants.
pub(crate) fn put_variables(
    variables: &mut Vec<ModelVariable>,
    constants: &[Atom],
) -> Result<(), AllocError>
    ensures { OnOk result (variables.new.items ≡ variables.old.items ++ map constant_variable constants.now) }
{
    for &constant in constants {
        variables.push(constant_variable(constant))?;
    }
    Ok(())
}

// Adds a clause of variables.
fn put_variable_clause(
    alloc: Global,
    calls: &mut Vec<Call>,
    positive: &[Atom],
    negative: &[Atom],
) -> Result<(), AllocError>
    ensures { OnOk result (built_all calls.new.items ≡ built_with (built_all calls.old.items) positive.now negative.now) }
{
    let positive = Argument::Many(Vec::from_slice(alloc, positive)?);
    let negative = Argument::Many(Vec::from_slice(alloc, negative)?);
    let arguments = vec![in alloc; positive, negative]?;
    calls.push(Call {
        code: Code::BoolClause,
        arguments,
    })?;
    Ok(())
}

// Adds the clause of a Boolean constant, by the number of its variable.
#[tactic(auto, unfolding(crate::specs::Constants::constant_clauses, flatzinc::specs::Calls::numbers_of))]
fn put_constant(
    alloc: Global,
    calls: &mut Vec<Call>,
    number: usize,
    constant: Atom,
) -> Result<(), AllocError>
    ensures { OnOk result (built_all calls.new.items ≡ and_built (built_all calls.old.items) (constant_clauses number constant)) }
{
    match constant {
        Atom::Whole(_) => Ok(()),
        Atom::Truth(true) => put_variable_clause(alloc, calls, &[Atom::Variable(number)], &[]),
        Atom::Truth(false) => put_variable_clause(alloc, calls, &[], &[Atom::Variable(number)]),
        Atom::Variable(_) => Ok(()),
    }
}

// Adds the clauses of Boolean constants, of which the first has a number.
pub(crate) fn put_constants(
    alloc: Global,
    calls: &mut Vec<Call>,
    first: usize,
    constants: &[Atom],
) -> Result<(), AllocError>
    requires { first + length constants.now < 18446744073709551616 }
    ensures { OnOk result (built_all calls.new.items ≡ and_built (built_all calls.old.items) (clauses_from first constants.now)) }
{
    for (k, &constant) in constants.iter().enumerate() {
        put_constant(alloc, calls, first + k, constant)?;
    }
    Ok(())
}
