// Whether calls of variables are those of builtins, each variable of the type that its place asks.
ghost use Rattle.std.specs.Prelude.{◌≡◌, List, false, map};
ghost use Rattle.integers.specs.Lists.{all};
ghost use Rattle.models.specs.Table.{integer, boolean, number, exponent, integers, booleans, parallel};
ghost use Rattle.flatzinc.specs.declared.ModelVariable.{ModelVariable};
ghost use Rattle.flatzinc.specs.Calls.{atoms_in};
ghost use Rattle.flatrewriting.specs.Sorts.{sort};
ghost use Rattle.flatrewriting.specs.Arguments.{given};
ghost use Rattle.flatconstants.specs.Typed.{fits_type, is_typed, given_typed, givens_typed, call_typed};

use flatrewriting::sort::{Sort, sorts_of};
use flatzinc::{Argument, Atom, Call, ModelVariable, Product};
use integers::equal;

// Whether a variable has a type; a Boolean one has the bounds 0 and 1.
#[tactic(auto, unfolding(crate::specs::Typed::fits_type))]
fn fits_type(is_boolean: bool, variable: &ModelVariable) -> bool
    ensures { result ≡ fits_type is_boolean variable.now }
{
    if is_boolean {
        return variable.is_boolean
            && equal(variable.bounds.lower, 0)
            && equal(variable.bounds.upper, 1);
    }
    !variable.is_boolean
}

// Whether an atom is a variable of a type.
#[tactic(auto, unfolding(crate::specs::Typed::is_typed))]
fn is_typed(variables: &[ModelVariable], is_boolean: bool, atom: Atom) -> bool
    ensures { result ≡ is_typed variables.now is_boolean atom }
{
    match atom {
        Atom::Whole(_) => false,
        Atom::Truth(_) => false,
        Atom::Variable(number) => number < variables.len()
            && fits_type(is_boolean, &variables[number]),
    }
}

// Whether atoms are variables of a type.
fn are_typed(variables: &[ModelVariable], is_boolean: bool, atoms: &[Atom]) -> bool
    ensures { result ≡ all (is_typed variables.now is_boolean) atoms.now }
{
    for &atom in atoms {
        if !is_typed(variables, is_boolean, atom) {
            return false;
        }
    }
    true
}

// Whether products are of integer variables.
fn are_terms(variables: &[ModelVariable], products: &[Product]) -> bool
    ensures { result ≡ all (is_typed variables.now false) (atoms_in products.now) }
{
    for &product in products {
        if !is_typed(variables, false, product.atom) {
            return false;
        }
    }
    true
}

// Whether an argument is an integer variable.
#[tactic(auto, unfolding(crate::specs::Typed::given_typed))]
fn is_integer(variables: &[ModelVariable], argument: &Argument) -> bool
    ensures { result ≡ given_typed variables.now integer (given argument.now) }
{
    match argument {
        Argument::One(atom) => is_typed(variables, false, *atom),
        Argument::Number(_) => false,
        Argument::Numbers(_) => false,
        Argument::Many(_) => false,
        Argument::Sum(_) => false,
    }
}

// Whether an argument is a Boolean variable.
#[tactic(auto, unfolding(crate::specs::Typed::given_typed))]
fn is_boolean(variables: &[ModelVariable], argument: &Argument) -> bool
    ensures { result ≡ given_typed variables.now boolean (given argument.now) }
{
    match argument {
        Argument::One(atom) => is_typed(variables, true, *atom),
        Argument::Number(_) => false,
        Argument::Numbers(_) => false,
        Argument::Many(_) => false,
        Argument::Sum(_) => false,
    }
}

// Whether an argument is a list of integer variables.
#[tactic(auto, unfolding(crate::specs::Typed::given_typed))]
fn are_integers(variables: &[ModelVariable], argument: &Argument) -> bool
    ensures { result ≡ given_typed variables.now integers (given argument.now) }
{
    match argument {
        Argument::Many(atoms) => are_typed(variables, false, atoms),
        Argument::One(_) => false,
        Argument::Number(_) => false,
        Argument::Numbers(_) => false,
        Argument::Sum(_) => false,
    }
}

// Whether an argument is a list of Boolean variables.
#[tactic(auto, unfolding(crate::specs::Typed::given_typed))]
fn are_booleans(variables: &[ModelVariable], argument: &Argument) -> bool
    ensures { result ≡ given_typed variables.now booleans (given argument.now) }
{
    match argument {
        Argument::Many(atoms) => are_typed(variables, true, atoms),
        Argument::One(_) => false,
        Argument::Number(_) => false,
        Argument::Numbers(_) => false,
        Argument::Sum(_) => false,
    }
}

// Whether an argument is a sum of integer variables.
#[tactic(auto, unfolding(crate::specs::Typed::given_typed))]
fn is_sum(variables: &[ModelVariable], argument: &Argument) -> bool
    ensures { result ≡ given_typed variables.now parallel (given argument.now) }
{
    match argument {
        Argument::Sum(products) => are_terms(variables, products),
        Argument::One(_) => false,
        Argument::Number(_) => false,
        Argument::Numbers(_) => false,
        Argument::Many(_) => false,
    }
}

// Whether an argument is an exponent.
#[tactic(auto, unfolding(crate::specs::Typed::given_typed))]
fn is_exponent(argument: &Argument) -> bool
    ensures { (vs : List ModelVariable) → result ≡ given_typed vs exponent (given argument.now) }
{
    match argument {
        Argument::Number(number) => {
            if *number < 0 {
                return false;
            }
            true
        }
        Argument::One(_) => false,
        Argument::Numbers(_) => false,
        Argument::Many(_) => false,
        Argument::Sum(_) => false,
    }
}

// Whether an argument is of a sort, and its variables of the sort's type.
#[tactic(auto, unfolding(crate::specs::Typed::given_typed))]
fn argument_typed(variables: &[ModelVariable], wanted: Sort, argument: &Argument) -> bool
    ensures { result ≡ given_typed variables.now (sort wanted) (given argument.now) }
{
    match wanted {
        Sort::Integer => is_integer(variables, argument),
        Sort::Boolean => is_boolean(variables, argument),
        Sort::Number => matches!(argument, Argument::Number(_)),
        Sort::Exponent => is_exponent(argument),
        Sort::Numbers => matches!(argument, Argument::Numbers(_)),
        Sort::Set => matches!(argument, Argument::Numbers(_)),
        Sort::Integers => are_integers(variables, argument),
        Sort::Booleans => are_booleans(variables, argument),
        Sort::Parallel => is_sum(variables, argument),
    }
}

// Whether arguments are of sorts, and their variables of the sorts' types.
fn arguments_typed(variables: &[ModelVariable], sorts: &[Sort], arguments: &[Argument]) -> bool
    ensures { result ≡ givens_typed variables.now (map sort sorts.now) (map given arguments.now) }
{
    if sorts.len() != arguments.len() {
        return false;
    }
    for (k, &wanted) in sorts.iter().enumerate() {
        if !argument_typed(variables, wanted, &arguments[k]) {
            return false;
        }
    }
    true
}

// Whether all calls are those of builtins, each variable of the type that its place asks.
pub fn all_typed(variables: &[ModelVariable], calls: &[Call]) -> bool
    ensures { result ≡ all (call_typed variables.now) calls.now }
{
    for call in calls {
        if !arguments_typed(variables, sorts_of(call.code), &call.arguments) {
            return false;
        }
    }
    true
}
