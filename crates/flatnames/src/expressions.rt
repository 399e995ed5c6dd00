// What names and expressions stand for in a scope.
ghost use Rattle.std.specs.Prelude.{◌≡◌, map, option_map, option_and_then, is_some, IfOk, MatchResult};
ghost use Rattle.integers.specs.Lists.{all};
ghost use Rattle.flatstatements.specs.Statement.{element_of, expression_of};
ghost use Rattle.flatzinc.specs.declared.trouble.Trouble.TheVariants.{Memory};
ghost use Rattle.flatzinc.specs.Seen.{value};
ghost use Rattle.flatnames.specs.Scope.{with, element_known, atom_known, value_known, atom_of, atoms_of, list_known, known, argument};
ghost use Rattle.flatnames.specs.Seen.{scope_of, known_of};

use crate::state::{Known, Scope};
use flatstatements::{Element, Expression, Literal};
use flatzinc::trouble::Trouble;
use flatzinc::{Atom, Value};
use std::alloc::{AllocError, Global};

// What a name stands for.
#[tactic(auto, unfolding(crate::specs::Seen::scope_of))]
pub fn known<'s, 'a>(scope: &'s Scope<'a>, name: &'a [u8]) -> Option<&'s Known>
    ensures { option_map (λ k. known_of k.now) result ≡ scope_of scope.now name.now }
{
    scope.get(&name)
}

// Gives a name what it stands for.
#[tactic(auto, unfolding(crate::specs::Seen::scope_of))]
pub fn declare<'a>(scope: &mut Scope<'a>, name: &'a [u8], known: Known) -> Result<(), Trouble>
    ensures { MatchResult result (λ x. scope_of scope.new ≡ with (scope_of scope.old) name.now (known_of known)) (λ e. e ≡ Memory) }
{
    scope.insert(name, known)?;
    Ok(())
}

// The atom of what a name stands for.
#[tactic(auto, unfolding(crate::specs::Scope::atom_known))]
fn known_atom(known: &Known) -> Option<Atom>
    ensures { result ≡ atom_known (known_of known.now) }
{
    match known {
        Known::Variable(v) => Some(Atom::Variable(*v)),
        Known::Parameter(Value::One(a)) => Some(*a),
        _ => None,
    }
}

// The atom that an element stands for.
#[tactic(auto, unfolding(crate::specs::Scope::atom_of, crate::specs::Scope::element_known, crate::specs::Scope::literal_known, crate::specs::Scope::atom_known))]
pub fn atom_of<'a>(scope: &Scope<'a>, element: &Element<'a>) -> Option<Atom>
    ensures { result ≡ atom_of (scope_of scope.now) (element_of element.now) }
{
    match element {
        Element::Literal(Literal::Number(n)) => Some(Atom::Whole(*n)),
        Element::Literal(Literal::Truth(b)) => Some(Atom::Truth(*b)),
        Element::Literal(Literal::Name(name)) => known_atom(known(scope, name)?),
        _ => None,
    }
}

// The atoms that elements stand for.
#[tactic(auto, unfolding(crate::specs::Scope::each))]
pub fn atoms_of<'a>(
    alloc: Global,
    scope: &Scope<'a>,
    elements: &[Element<'a>],
) -> Result<Option<Vec<Atom>>, AllocError>
    ensures { IfOk result (λ o. option_map (λ v. v.items) o ≡ atoms_of (scope_of scope.now) (map element_of elements.now)) }
{
    let mut out = Vec::new(alloc);
    for element in elements {
        match atom_of(scope, element) {
            Some(atom) => out.push(atom)?,
            None => return Ok(None),
        }
    }
    Ok(Some(out))
}

// A copy of a value.
fn copied(alloc: Global, of: &Value) -> Result<Value, AllocError>
    ensures { IfOk result (λ v. value v ≡ value of.now) }
{
    match of {
        Value::One(a) => Ok(Value::One(*a)),
        Value::Many(atoms) => Ok(Value::Many(atoms.clone()?)),
        Value::Members(numbers) => Ok(Value::Members(numbers.clone()?)),
        Value::Range(lo, hi) => Ok(Value::Range(*lo, *hi)),
    }
}

// What an element stands for; none where its name is not declared or stands for no value.
#[tactic(auto, unfolding(crate::specs::Scope::element_known, crate::specs::Scope::literal_known, crate::specs::Scope::value_known))]
fn element_value<'a>(
    alloc: Global,
    scope: &Scope<'a>,
    element: &Element<'a>,
) -> Result<Option<Value>, AllocError>
    ensures { IfOk result (λ o. option_map value o ≡ option_and_then value_known (element_known (scope_of scope.now) (element_of element.now))) }
{
    match element {
        Element::Literal(Literal::Number(n)) => Ok(Some(Value::One(Atom::Whole(*n)))),
        Element::Literal(Literal::Truth(b)) => Ok(Some(Value::One(Atom::Truth(*b)))),
        Element::Literal(Literal::Name(name)) => match known(scope, name) {
            Some(Known::Variable(v)) => Ok(Some(Value::One(Atom::Variable(*v)))),
            Some(Known::Parameter(of)) => Ok(Some(copied(alloc, of)?)),
            _ => Ok(None),
        },
        Element::Literal(Literal::Float(_)) => Ok(None),
        Element::Members(numbers) => Ok(Some(Value::Members(numbers.clone()?))),
        Element::Range(lo, hi) => Ok(Some(Value::Range(*lo, *hi))),
    }
}

// Whether all names of elements are declared.
#[tactic(auto, unfolding(crate::specs::Scope::element_known, crate::specs::Scope::literal_known, integers::specs::Lists::all))]
fn all_declared<'a>(scope: &Scope<'a>, elements: &[Element<'a>]) -> bool
    ensures { result ≡ all (λ e. is_some (element_known (scope_of scope.now) e)) (map element_of elements.now) }
{
    for element in elements {
        if let Element::Literal(Literal::Name(name)) = element
            && known(scope, name).is_none()
        {
            return false;
        }
    }
    true
}

// What an argument stands for; none where a name in it is not declared or it stands for no value.
#[tactic(auto, unfolding(crate::specs::Scope::argument, crate::specs::Scope::known, crate::specs::Scope::list_known, crate::specs::Scope::value_known))]
pub fn argument<'a>(
    alloc: Global,
    scope: &Scope<'a>,
    expression: &Expression<'a>,
) -> Result<Option<Value>, AllocError>
    ensures { IfOk result (λ o. option_map value o ≡ argument (scope_of scope.now) (expression_of expression.now)) }
{
    match expression {
        Expression::One(element) => element_value(alloc, scope, element),
        Expression::Many(elements) => Ok(atoms_of(alloc, scope, elements)?.map(Value::Many)),
    }
}

// What a list stands for; none where a name in it is not declared.
#[tactic(auto, unfolding(crate::specs::Scope::list_known))]
fn list_known<'a>(
    alloc: Global,
    scope: &Scope<'a>,
    elements: &[Element<'a>],
) -> Result<Option<Known>, AllocError>
    ensures { IfOk result (λ o. option_map known_of o ≡ list_known (scope_of scope.now) (map element_of elements.now)) }
{
    match atoms_of(alloc, scope, elements)? {
        Some(atoms) => Ok(Some(Known::Parameter(Value::Many(atoms)))),
        None if all_declared(scope, elements) => Ok(Some(Known::Other)),
        None => Ok(None),
    }
}

// What a name would stand for that has the value of an expression; none where a name in it is not declared.
#[tactic(auto, unfolding(crate::specs::Scope::known, crate::specs::Scope::element_known, crate::specs::Scope::literal_known))]
pub fn stands_for<'a>(
    alloc: Global,
    scope: &Scope<'a>,
    expression: &Expression<'a>,
) -> Result<Option<Known>, AllocError>
    ensures { IfOk result (λ o. option_map known_of o ≡ known (scope_of scope.now) (expression_of expression.now)) }
{
    let value = match expression {
        Expression::Many(elements) => return list_known(alloc, scope, elements),
        Expression::One(Element::Members(numbers)) => Value::Members(numbers.clone()?),
        Expression::One(Element::Range(lo, hi)) => Value::Range(*lo, *hi),
        Expression::One(Element::Literal(Literal::Number(n))) => Value::One(Atom::Whole(*n)),
        Expression::One(Element::Literal(Literal::Truth(b))) => Value::One(Atom::Truth(*b)),
        Expression::One(Element::Literal(Literal::Float(_))) => return Ok(Some(Known::Other)),
        Expression::One(Element::Literal(Literal::Name(name))) => match known(scope, name) {
            None => return Ok(None),
            Some(Known::Other) => return Ok(Some(Known::Other)),
            Some(Known::Variable(v)) => return Ok(Some(Known::Variable(*v))),
            Some(Known::Parameter(of)) => copied(alloc, of)?,
        },
    };
    Ok(Some(Known::Parameter(value)))
}
