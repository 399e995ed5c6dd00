// What is wrong with a statement, in words. No clause speaks of the words; that something is wrong is what the callers promise.
use crate::due::{Due, dues};
use crate::expressions::{atom_of, known};
use crate::fits::{fits, in_range, is_boolean, is_integer};
use crate::items::{has_code, unprefixed};
use crate::state::Scope;
use flatstatements::{Element, Expression, Literal};
use flatzinc::trouble::Trouble;
use flatzinc::{Atom, Declared, Domain, Item, Value};
use std::alloc::{AllocError, Global};
use words::limit;

// A name as text.
fn text(name: &[u8]) -> &str {
    match std::str::from_utf8(name) {
        Ok(name) => name,
        Err(_) => "?",
    }
}

// A name, and what it does.
pub fn of_name(alloc: Global, name: &[u8], what: &str) -> Trouble {
    let name = text(name);
    Trouble::told(format!(in alloc; "{name} {what}"))
}

// A builtin that has no code.
pub fn no_rows(alloc: Global, builtin: &[u8]) -> Trouble {
    of_name(
        alloc,
        builtin,
        "has no rows; flatten with the library mznlib",
    )
}

// ---- expressions that stand for nothing

// What is due in most places of a builtin, by its name.
fn wanted(builtin: &[u8]) -> &'static str {
    if builtin.starts_with(b"bool") || builtin.starts_with(b"array_bool") {
        "stands where a Boolean is due"
    } else {
        "stands where an integer is due"
    }
}

// A literal that stands for no atom.
pub fn of_literal(alloc: Global, builtin: &[u8], literal: Literal) -> Trouble {
    match literal {
        Literal::Name(name) => of_name(alloc, name, "is not declared"),
        Literal::Float(spelt) => of_name(alloc, spelt, wanted(builtin)),
        _ => of_name(alloc, b"a number", wanted(builtin)),
    }
}

// An element that stands for no atom.
fn of_element<'a>(
    alloc: Global,
    scope: &Scope<'a>,
    builtin: &[u8],
    element: &Element<'a>,
) -> Trouble {
    match element {
        Element::Literal(Literal::Name(name)) => match known(scope, name) {
            None => of_name(alloc, name, "is not declared"),
            Some(_) => of_name(alloc, name, wanted(builtin)),
        },
        Element::Literal(literal) => of_literal(alloc, builtin, *literal),
        _ => of_name(alloc, b"a set", wanted(builtin)),
    }
}

// A list that has a name that is not declared.
fn of_undeclared<'a>(alloc: Global, scope: &Scope<'a>, elements: &[Element<'a>]) -> Trouble {
    for element in elements {
        if let Element::Literal(Literal::Name(name)) = element
            && known(scope, name).is_none()
        {
            return of_name(alloc, name, "is not declared");
        }
    }
    of_name(alloc, b"a list", "has a name that is not declared")
}

// A parameter's value that stands for nothing.
pub fn of_parameter<'a>(alloc: Global, scope: &Scope<'a>, expression: &Expression<'a>) -> Trouble {
    match expression {
        Expression::One(element) => of_element(alloc, scope, b"int", element),
        Expression::Many(elements) => of_undeclared(alloc, scope, elements),
    }
}

// An argument that stands for no value.
pub fn of_argument<'a>(
    alloc: Global,
    scope: &Scope<'a>,
    name: &[u8],
    expression: &Expression<'a>,
) -> Trouble {
    let builtin = unprefixed(name);
    if !has_code(builtin) {
        return no_rows(alloc, builtin);
    }
    match expression {
        Expression::One(element) => of_element(alloc, scope, builtin, element),
        Expression::Many(elements) => {
            for element in elements {
                if atom_of(scope, element).is_none() {
                    return of_element(alloc, scope, builtin, element);
                }
            }
            of_name(alloc, b"a list", wanted(builtin))
        }
    }
}

// ---- values that do not fit

// The names of the variables and the builtin that a fault speaks of.
#[derive(Clone, Copy)]
pub struct Place<'s, 'a> {
    pub names: &'s [&'a [u8]],
    pub variables: &'s [Declared],
    pub builtin: &'s [u8],
}

// A value as a message spells it.
fn spelt(alloc: Global, place: Place, of: &Value) -> Result<String, AllocError> {
    match of {
        Value::One(Atom::Whole(n)) => format!(in alloc; "{n}"),
        Value::One(Atom::Truth(true)) => String::from_str(alloc, "True"),
        Value::One(Atom::Truth(false)) => String::from_str(alloc, "False"),
        Value::One(Atom::Variable(v)) => match place.names.get(*v) {
            Some(name) => String::from_str(alloc, text(name)),
            None => String::from_str(alloc, "?"),
        },
        Value::Many(_) => String::from_str(alloc, "a list"),
        Value::Members(_) | Value::Range(_, _) => String::from_str(alloc, "a set"),
    }
}

// A value where something else is due.
fn of_other(alloc: Global, place: Place, of: &Value, due: &str) -> Trouble {
    let builtin = text(place.builtin);
    match spelt(alloc, place, of) {
        Ok(value) => Trouble::told(format!(in alloc; "{builtin}: {value} where {due} is due")),
        Err(_) => Trouble::Memory,
    }
}

// A value where an atom of a type is due.
fn of_type(alloc: Global, place: Place, of: &Value, due: &str) -> Trouble {
    if let Value::One(Atom::Variable(v)) = of
        && let Some(name) = place.names.get(*v)
    {
        return of_name(alloc, name, "has the wrong type");
    }
    match spelt(alloc, place, of) {
        Ok(value) => Trouble::told(format!(in alloc; "{value} stands where {due} is due")),
        Err(_) => Trouble::Memory,
    }
}

// A number that is beyond the range.
fn of_number(alloc: Global, place: Place, n: i64) -> Trouble {
    let builtin = text(place.builtin);
    let (lowest, highest) = (limit::LOWEST, limit::HIGHEST);
    Trouble::told(format!(in alloc;
        "{builtin}: the number {n} is outside the range {lowest} to {highest}"
    ))
}

// An atom where one of a type is due.
fn of_atom(alloc: Global, place: Place, atom: Atom, is_integer: bool) -> Trouble {
    match atom {
        Atom::Whole(n) if is_integer => of_number(alloc, place, n),
        _ if is_integer => of_type(alloc, place, &Value::One(atom), "an integer"),
        _ => of_type(alloc, place, &Value::One(atom), "a Boolean"),
    }
}

// A number of members where a set is due.
fn of_size(alloc: Global, place: Place, size: i64) -> Trouble {
    let builtin = text(place.builtin);
    let most = limit::LIST_LENGTH;
    Trouble::told(format!(in alloc;
        "{builtin}: {size} members where a set of at most {most} numbers is due"
    ))
}

// A value where a set is due.
fn of_set(alloc: Global, place: Place, of: &Value) -> Trouble {
    match of {
        Value::Members(numbers) => {
            for n in numbers {
                if !in_range(*n) {
                    return of_number(alloc, place, *n);
                }
            }
            of_size(
                alloc,
                place,
                i64::try_from(numbers.len()).unwrap_or(i64::MAX),
            )
        }
        Value::Range(lo, hi) => of_size(alloc, place, hi.saturating_sub(*lo).saturating_add(1)),
        _ => of_other(alloc, place, of, "a set of at most 32 numbers"),
    }
}

// A list where one of numbers or of atoms of a type is due.
fn of_list(alloc: Global, place: Place, due: Due, atoms: &[Atom]) -> Trouble {
    let builtin = text(place.builtin);
    for atom in atoms {
        match due {
            Due::Numbers | Due::ShortNumbers => match atom {
                Atom::Whole(n) if in_range(*n) => {}
                Atom::Whole(n) => return of_number(alloc, place, *n),
                _ => return Trouble::told(format!(in alloc; "{builtin}: a list of numbers is due")),
            },
            Due::Booleans | Due::ShortBooleans => {
                if !is_boolean(place.variables, *atom) {
                    return of_atom(alloc, place, *atom, false);
                }
            }
            _ => {
                if !is_integer(place.variables, *atom) {
                    return of_atom(alloc, place, *atom, true);
                }
            }
        }
    }
    let (length, most) = (atoms.len(), limit::LIST_LENGTH);
    Trouble::told(format!(in alloc; "{builtin}: a list of {length}, {most} is the limit"))
}

// A value that does not fit where something is due.
fn of_value(alloc: Global, place: Place, due: Due, of: &Value) -> Trouble {
    match (due, of) {
        (Due::Integer, Value::One(atom)) => of_atom(alloc, place, *atom, true),
        (Due::Integer, _) => of_type(alloc, place, of, "an integer"),
        (Due::Boolean, _) => of_type(alloc, place, of, "a Boolean"),
        (Due::Number, Value::One(Atom::Whole(n))) => of_number(alloc, place, *n),
        (Due::Number, _) => of_other(alloc, place, of, "a number"),
        (Due::Exponent, _) => of_other(alloc, place, of, "a number from 0 to 27"),
        (Due::Set, _) => of_set(alloc, place, of),
        (_, Value::Many(atoms)) => of_list(alloc, place, due, atoms),
        _ => of_other(alloc, place, of, "a list"),
    }
}

// Arguments that are not those of a builtin with a code.
fn of_arguments(alloc: Global, place: Place, due: &[Due], values: &[Value]) -> Trouble {
    let builtin = text(place.builtin);
    let wanted = due.len();
    if values.len() != wanted {
        return Trouble::told(format!(in alloc; "{builtin} takes {wanted} arguments"));
    }
    for (one, of) in due.iter().zip(values) {
        if !fits(place.variables, *one, of) {
            return of_value(alloc, place, *one, of);
        }
    }
    Trouble::told(format!(in alloc; "{builtin}: lists of unequal length"))
}

// An item whose arguments do not fit.
pub fn of_item(alloc: Global, place: Place, item: &Item) -> Trouble {
    match item {
        Item::Coded(code, values) => of_arguments(alloc, place, dues(*code), values),
        Item::BoolEq(a, b) | Item::BoolLe(a, b) | Item::BoolLt(a, b) | Item::BoolUnequal(a, b) => {
            if is_boolean(place.variables, *a) {
                of_atom(alloc, place, *b, false)
            } else {
                of_atom(alloc, place, *a, false)
            }
        }
        Item::ArrayBoolOr(atoms, r) => {
            if is_boolean(place.variables, *r) {
                of_list(alloc, place, Due::Booleans, atoms)
            } else {
                of_atom(alloc, place, *r, false)
            }
        }
        Item::SetInRange(x, lo, hi) => {
            if !is_integer(place.variables, *x) {
                of_atom(alloc, place, *x, true)
            } else if in_range(*lo) {
                of_number(alloc, place, *hi)
            } else {
                of_number(alloc, place, *lo)
            }
        }
    }
}

// ---- variables

// Bounds beyond the range.
fn of_bounds(alloc: Global, name: &[u8], lo: i64, hi: i64) -> Trouble {
    let name = text(name);
    let (lowest, highest) = (limit::LOWEST, limit::HIGHEST);
    Trouble::told(format!(in alloc;
        "{name} reaches from {lo} to {hi}, the range is {lowest} to {highest}"
    ))
}

// A domain that a variable cannot have.
pub fn of_domain(alloc: Global, name: &[u8], domain: &Domain) -> Trouble {
    match domain {
        Domain::Between(lo, hi) if *lo <= *hi => of_bounds(alloc, name, *lo, *hi),
        Domain::Among(numbers) if !numbers.is_empty() => {
            let mut lo = i64::MAX;
            let mut hi = i64::MIN;
            for n in numbers {
                lo = lo.min(*n);
                hi = hi.max(*n);
            }
            if in_range(lo) && in_range(hi) {
                of_name(alloc, name, "has a domain of more than 32 numbers")
            } else {
                of_bounds(alloc, name, lo, hi)
            }
        }
        _ => of_name(alloc, name, "has an empty domain"),
    }
}

// What a variable of a domain cannot be declared equal to.
pub fn of_given(alloc: Global, place: Place, domain: &Domain, atom: Atom) -> Trouble {
    of_atom(alloc, place, atom, !matches!(domain, Domain::Bools))
}

// What no objective can be.
pub fn of_objective(alloc: Global, place: Place, atom: Atom) -> Trouble {
    of_atom(alloc, place, atom, true)
}

// A text without a solve item.
pub fn no_solve_item(alloc: Global) -> Trouble {
    Trouble::told(String::from_str(alloc, "no solve item"))
}
