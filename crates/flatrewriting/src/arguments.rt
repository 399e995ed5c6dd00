// The arguments of a builtin with a code, made of FlatZinc's values by their sorts.
ghost use Rattle.std.specs.Prelude.{◌≡◌, map, length, IfOk};
ghost use Rattle.integers.specs.Bounds.{◌to◌};
ghost use Rattle.flatzinc.specs.Seen.{row, value};
ghost use Rattle.flatzinc.specs.Items.{wholes};
ghost use Rattle.flatzinc.specs.Answer.{Gives};
ghost use Rattle.flatrewriting.specs.Sorts.{sort};
ghost use Rattle.flatrewriting.specs.Arguments.{given, as_atom, as_whole, as_exponent, as_numbers, as_range, as_set, as_atoms, list_in, given_by, products_of, paired, front_pair, front_one, front, arguments};

use crate::range::numbers_between;
use crate::sort::{Sort, sorts_of};
use flatzinc::trouble::Trouble;
use flatzinc::{Argument, Atom, Product, Value};
use models::code::Code;
use std::alloc::{AllocError, Global};

// A fault of a message.
pub(crate) fn fault(alloc: Global, message: &str) -> Trouble {
    Trouble::told(String::from_str(alloc, message))
}

// The numbers of a list of atoms that are all numbers.
fn wholes(alloc: Global, atoms: &[Atom]) -> Result<Vec<i64>, Trouble>
    ensures { Gives (λ v. v.items) result (wholes atoms.now) }
{
    let mut numbers = Vec::new(alloc);
    for &atom in atoms {
        let Atom::Whole(number) = atom else {
            return Err(fault(alloc, "a list of numbers is due"));
        };
        numbers.push(number)?;
    }
    Ok(numbers)
}

// An atom.
#[tactic(auto, unfolding(crate::specs::Arguments::as_atom))]
fn as_atom(alloc: Global, argument: &Value) -> Result<Argument, Trouble>
    ensures { Gives given result (as_atom (value argument.now)) }
{
    match argument {
        Value::One(atom) => Ok(Argument::One(*atom)),
        _ => Err(fault(alloc, "a variable or a constant is due")),
    }
}

// A number.
#[tactic(auto, unfolding(crate::specs::Arguments::as_whole))]
fn as_whole(alloc: Global, argument: &Value) -> Result<Argument, Trouble>
    ensures { Gives given result (as_whole (value argument.now)) }
{
    match argument {
        Value::One(Atom::Whole(number)) => Ok(Argument::Number(*number)),
        _ => Err(fault(alloc, "a number is due")),
    }
}

// The exponent of a power.
#[tactic(auto, unfolding(crate::specs::Arguments::as_exponent))]
fn as_exponent(alloc: Global, argument: &Value) -> Result<Argument, Trouble>
    ensures { Gives given result (as_exponent (value argument.now)) }
{
    match argument {
        Value::One(Atom::Whole(number)) => {
            if *number < 0 {
                return Err(fault(alloc, "a number from 0 to 27 is due"));
            }
            Ok(Argument::Number(*number))
        }
        _ => Err(fault(alloc, "a number from 0 to 27 is due")),
    }
}

// The atoms of a list.
#[tactic(auto, unfolding(crate::specs::Arguments::list_in))]
pub(crate) fn list_in(alloc: Global, argument: &Value) -> Result<Vec<Atom>, Trouble>
    ensures { Gives (λ v. v.items) result (list_in (value argument.now)) }
{
    match argument {
        Value::Many(atoms) => Ok(Vec::from_slice(alloc, atoms)?),
        _ => Err(fault(alloc, "a list is due")),
    }
}

// A list of atoms.
fn as_atoms(alloc: Global, argument: &Value) -> Result<Argument, Trouble>
    ensures { Gives given result (as_atoms (value argument.now)) }
{
    let atoms = list_in(alloc, argument)?;
    Ok(Argument::Many(atoms))
}

// A list of numbers.
fn as_numbers(alloc: Global, argument: &Value) -> Result<Argument, Trouble>
    ensures { Gives given result (as_numbers (value argument.now)) }
{
    let atoms = list_in(alloc, argument)?;
    let numbers = wholes(alloc, &atoms)?;
    Ok(Argument::Numbers(numbers))
}

// The numbers of a range, as an argument.
fn range_numbers(alloc: Global, lo: i64, hi: i64) -> Result<Argument, Trouble>
    ensures { Gives given result (as_range (lo to hi)) }
{
    match numbers_between(alloc, lo, hi)? {
        Some(numbers) => Ok(Argument::Numbers(numbers)),
        None => Err(fault(alloc, "a set of at most 32 numbers is due")),
    }
}

// A set of numbers.
#[tactic(auto, unfolding(crate::specs::Arguments::as_set))]
fn as_set(alloc: Global, argument: &Value) -> Result<Argument, Trouble>
    ensures { Gives given result (as_set (value argument.now)) }
{
    match argument {
        Value::Members(members) => Ok(Argument::Numbers(Vec::from_slice(alloc, members)?)),
        Value::Range(lo, hi) => range_numbers(alloc, *lo, *hi),
        _ => Err(fault(alloc, "a set of at most 32 numbers is due")),
    }
}

// An argument of one value.
#[tactic(auto, unfolding(crate::specs::Arguments::given_by))]
fn given_by(alloc: Global, wanted: Sort, argument: &Value) -> Result<Argument, Trouble>
    ensures { Gives given result (given_by (sort wanted) (value argument.now)) }
{
    match wanted {
        Sort::Integer | Sort::Boolean => as_atom(alloc, argument),
        Sort::Number => as_whole(alloc, argument),
        Sort::Exponent => as_exponent(alloc, argument),
        Sort::Numbers => as_numbers(alloc, argument),
        Sort::Set => as_set(alloc, argument),
        Sort::Integers | Sort::Booleans => as_atoms(alloc, argument),
        Sort::Parallel => Err(fault(alloc, "two lists are due")),
    }
}

// Each number with the atom at its place.
fn products_of(alloc: Global, numbers: &[i64], atoms: &[Atom]) -> Result<Vec<Product>, AllocError>
    requires { length numbers.now ≡ length atoms.now }
    ensures { IfOk result (λ v. v.items ≡ products_of numbers.now atoms.now) }
{
    let mut products = Vec::new(alloc);
    for (k, &atom) in atoms.iter().enumerate() {
        products.push(Product {
            coefficient: numbers[k],
            atom,
        })?;
    }
    Ok(products)
}

// A sum, of two lists of one length.
fn paired(alloc: Global, first: &Value, second: &Value) -> Result<Argument, Trouble>
    ensures { Gives given result (paired (value first.now) (value second.now)) }
{
    let coefficients = list_in(alloc, first)?;
    let numbers = wholes(alloc, &coefficients)?;
    let atoms = list_in(alloc, second)?;
    if numbers.len() != atoms.len() {
        return Err(fault(alloc, "lists of unequal length"));
    }
    Ok(Argument::Sum(products_of(alloc, &numbers, &atoms)?))
}

// Two lists at the front of values, and the values after them.
#[tactic(auto, unfolding(crate::specs::Arguments::front_pair))]
fn front_pair<'a>(alloc: Global, values: &'a [Value]) -> Result<(Argument, &'a [Value]), Trouble>
    ensures { Gives (λ x. record { argument = given x.0; rest = map value x.1.now }) result (front_pair (map value values.now)) }
{
    match values {
        [] => Err(fault(alloc, "two lists are due")),
        [_] => Err(fault(alloc, "two lists are due")),
        [first, second, rest @ ..] => Ok((paired(alloc, first, second)?, rest)),
    }
}

// The argument of one value at the front of values, and the values after it.
#[tactic(auto, unfolding(crate::specs::Arguments::front_one))]
fn front_one<'a>(
    alloc: Global,
    wanted: Sort,
    values: &'a [Value],
) -> Result<(Argument, &'a [Value]), Trouble>
    ensures { Gives (λ x. record { argument = given x.0; rest = map value x.1.now }) result (front_one (sort wanted) (map value values.now)) }
{
    match values {
        [] => Err(fault(alloc, "an argument is missing")),
        [first, rest @ ..] => Ok((given_by(alloc, wanted, first)?, rest)),
    }
}

// The argument of a sort at the front of values, and the values after it.
#[tactic(auto, unfolding(crate::specs::Arguments::front))]
fn front<'a>(
    alloc: Global,
    wanted: Sort,
    values: &'a [Value],
) -> Result<(Argument, &'a [Value]), Trouble>
    ensures { Gives (λ x. record { argument = given x.0; rest = map value x.1.now }) result (front (sort wanted) (map value values.now)) }
{
    match wanted {
        Sort::Parallel => front_pair(alloc, values),
        _ => front_one(alloc, wanted, values),
    }
}

// All arguments of a code.
pub(crate) fn arguments_of(
    alloc: Global,
    code: Code,
    values: &[Value],
) -> Result<Vec<Argument>, Trouble>
    ensures { Gives (λ v. map given v.items) result (arguments (row code).sorts (map value values.now)) }
{
    let mut arguments = Vec::new(alloc);
    let mut rest = values;
    for &wanted in sorts_of(code) {
        let (argument, after) = front(alloc, wanted, rest)?;
        arguments.push(argument)?;
        rest = after;
    }
    if 0 < rest.len() {
        return Err(fault(alloc, "too many arguments"));
    }
    Ok(arguments)
}
