// Which values fit where they stand.
ghost use Rattle.std.specs.Prelude.{◌≡◌, map, ◌&&◌, pos, length};
ghost use Rattle.integers.specs.Lists.{all};
ghost use Rattle.integers.specs.Bounds.{◌to◌, within, width};
ghost use Rattle.integers.specs.Number.{+0};
ghost use Rattle.words.specs.Limit as Limit;
ghost use Rattle.flatzinc.specs.Items.{one, many};
ghost use Rattle.flatzinc.specs.Seen.{value, declared, domain, item};
ghost use Rattle.flatnames.specs.Due.{in_range, is_short, is_bools, is_boolean, is_integer, is_number, fits, each_fits, same_lengths, item_fits, domain_fits, given_fits};
ghost use Rattle.flatnames.specs.SeenDue.{due_of};

use crate::due::{Due, dues};
use flatzinc::{Atom, Declared, Domain, Item, Value};
use integers::minus;
use words::limit;

// Whether a number lies in the range of models.
#[tactic(auto, unfolding(crate::specs::Due::in_range, integers::specs::Bounds::within))]
pub fn in_range(n: i64) -> bool
    ensures { result ≡ in_range n }
{
    limit::LOWEST <= n && n <= limit::HIGHEST
}

// Whether a domain is that of a Boolean variable.
#[tactic(auto, unfolding(crate::specs::Due::is_bools))]
fn is_bools(of: &Domain) -> bool
    ensures { result ≡ is_bools (domain of.now) }
{
    matches!(of, Domain::Bools)
}

// Whether an atom is a Boolean.
#[tactic(auto, unfolding(crate::specs::Due::is_boolean, crate::specs::Due::is_bools))]
pub fn is_boolean(variables: &[Declared], atom: Atom) -> bool
    ensures { result ≡ is_boolean (map declared variables.now) atom }
{
    match atom {
        Atom::Whole(_) => false,
        Atom::Truth(_) => true,
        Atom::Variable(v) => match variables.get(v) {
            Some(variable) => is_bools(&variable.domain),
            None => false,
        },
    }
}

// Whether an atom is an integer, in the range where it is a number.
#[tactic(auto, unfolding(crate::specs::Due::is_integer, crate::specs::Due::is_bools))]
pub fn is_integer(variables: &[Declared], atom: Atom) -> bool
    ensures { result ≡ is_integer (map declared variables.now) atom }
{
    match atom {
        Atom::Whole(n) => in_range(n),
        Atom::Truth(_) => false,
        Atom::Variable(v) => match variables.get(v) {
            Some(variable) => !is_bools(&variable.domain),
            None => true,
        },
    }
}

// Whether an atom is a number in the range.
#[tactic(auto, unfolding(crate::specs::Due::is_number))]
fn is_number(atom: Atom) -> bool
    ensures { result ≡ is_number atom }
{
    match atom {
        Atom::Whole(n) => in_range(n),
        _ => false,
    }
}

// Whether all atoms are Booleans.
#[tactic(auto, unfolding(integers::specs::Lists::all))]
fn all_booleans(variables: &[Declared], atoms: &[Atom]) -> bool
    ensures { result ≡ all (is_boolean (map declared variables.now)) atoms.now }
{
    for atom in atoms {
        if !is_boolean(variables, *atom) {
            return false;
        }
    }
    true
}

// Whether all atoms are integers.
#[tactic(auto, unfolding(integers::specs::Lists::all))]
fn all_integers(variables: &[Declared], atoms: &[Atom]) -> bool
    ensures { result ≡ all (is_integer (map declared variables.now)) atoms.now }
{
    for atom in atoms {
        if !is_integer(variables, *atom) {
            return false;
        }
    }
    true
}

// Whether all atoms are numbers.
#[tactic(auto, unfolding(integers::specs::Lists::all))]
fn all_numbers(atoms: &[Atom]) -> bool
    ensures { result ≡ all is_number atoms.now }
{
    for atom in atoms {
        if !is_number(*atom) {
            return false;
        }
    }
    true
}

// Whether all numbers lie in the range.
#[tactic(auto, unfolding(integers::specs::Lists::all))]
fn all_in_range(numbers: &[i64]) -> bool
    ensures { result ≡ all in_range numbers.now }
{
    for number in numbers {
        if !in_range(*number) {
            return false;
        }
    }
    true
}

// Whether the numbers of a range lie in the range of models, and are at most 32.
#[tactic(auto, unfolding(integers::specs::Bounds::width))]
fn range_fits(lo: i64, hi: i64) -> bool
    ensures { result ≡ (in_range lo && in_range hi && is_short (width (lo to hi))) }
{
    if !in_range(lo) {
        return false;
    }
    if !in_range(hi) {
        return false;
    }
    minus(hi, lo) < 32
}

// Whether an atom fits where one is due.
#[tactic(auto, unfolding(crate::specs::Due::fits, crate::specs::Due::is_number))]
fn atom_fits(variables: &[Declared], due: Due, atom: Atom) -> bool
    ensures { result ≡ fits (map declared variables.now) (due_of due) (one atom) }
{
    match due {
        Due::Integer => is_integer(variables, atom),
        Due::Boolean => is_boolean(variables, atom),
        Due::Number => is_number(atom),
        Due::Exponent => match atom {
            Atom::Whole(n) => is_exponent(n),
            _ => false,
        },
        _ => false,
    }
}

// Whether a number is an exponent of a power.
#[tactic(auto, unfolding(integers::specs::Bounds::within))]
fn is_exponent(n: i64) -> bool
    ensures { result ≡ within (+0 to pos Limit.exponent) n }
{
    0 <= n && n <= limit::EXPONENT as i64
}

// Whether a list of atoms fits where one is due.
#[tactic(auto, unfolding(crate::specs::Due::fits))]
fn list_fits(variables: &[Declared], due: Due, atoms: &[Atom]) -> bool
    ensures { result ≡ fits (map declared variables.now) (due_of due) (many atoms.now) }
{
    let is_short = atoms.len() <= limit::LIST_LENGTH;
    match due {
        Due::Numbers => all_numbers(atoms),
        Due::Integers => all_integers(variables, atoms),
        Due::Booleans => all_booleans(variables, atoms),
        Due::ShortNumbers => all_numbers(atoms) && is_short,
        Due::ShortIntegers => all_integers(variables, atoms) && is_short,
        Due::ShortBooleans => all_booleans(variables, atoms) && is_short,
        _ => false,
    }
}

// Whether a set of numbers fits where a set is due.
fn members_fit(numbers: &[i64]) -> bool
    ensures { result ≡ (all in_range numbers.now && is_short (length numbers.now)) }
{
    all_in_range(numbers) && numbers.len() <= limit::LIST_LENGTH
}

// Whether a value fits where one is due.
#[tactic(auto, unfolding(crate::specs::Due::fits))]
pub fn fits(variables: &[Declared], due: Due, of: &Value) -> bool
    ensures { result ≡ fits (map declared variables.now) (due_of due) (value of.now) }
{
    match of {
        Value::One(atom) => atom_fits(variables, due, *atom),
        Value::Many(atoms) => list_fits(variables, due, atoms),
        Value::Members(numbers) => match due {
            Due::Set => members_fit(numbers),
            _ => false,
        },
        Value::Range(lo, hi) => match due {
            Due::Set => range_fits(*lo, *hi),
            _ => false,
        },
    }
}

// Whether values fit where they are due, as many of them as there are.
#[tactic(auto, unfolding(crate::specs::Due::each_fits))]
pub fn each_fits(variables: &[Declared], due: &[Due], values: &[Value]) -> bool
    ensures { result ≡ each_fits (map declared variables.now) (map due_of due.now) (map value values.now) }
{
    if due.len() != values.len() {
        return false;
    }
    for (place, one) in due.iter().enumerate() {
        if !fits(variables, *one, &values[place]) {
            return false;
        }
    }
    true
}

// Whether the first two lists of a sum have one length.
#[tactic(auto, unfolding(crate::specs::Due::same_lengths))]
pub fn same_lengths(due: &[Due], values: &[Value]) -> bool
    ensures { result ≡ same_lengths (map due_of due.now) (map value values.now) }
{
    match (due, values) {
        ([Due::Numbers, ..], [Value::Many(numbers), Value::Many(atoms), ..]) => {
            numbers.len() == atoms.len()
        }
        _ => true,
    }
}

// Whether the arguments of an item fit.
#[tactic(auto, unfolding(crate::specs::Due::item_fits))]
pub fn item_fits(variables: &[Declared], of: &Item) -> bool
    ensures { result ≡ item_fits (map declared variables.now) (item of.now) }
{
    match of {
        Item::Coded(code, values) => {
            each_fits(variables, dues(*code), values) && same_lengths(dues(*code), values)
        }
        Item::BoolEq(a, b) | Item::BoolLe(a, b) | Item::BoolLt(a, b) | Item::BoolUnequal(a, b) => {
            is_boolean(variables, *a) && is_boolean(variables, *b)
        }
        Item::ArrayBoolOr(atoms, r) => all_booleans(variables, atoms) && is_boolean(variables, *r),
        Item::SetInRange(x, lo, hi) => is_integer(variables, *x) && in_range(*lo) && in_range(*hi),
    }
}

// Whether a domain has numbers, all in the range; a set has at most 32.
#[tactic(auto, unfolding(crate::specs::Due::domain_fits))]
pub fn domain_fits(of: &Domain) -> bool
    ensures { result ≡ domain_fits (domain of.now) }
{
    match of {
        Domain::Bools => true,
        Domain::Between(lo, hi) => *lo <= *hi && in_range(*lo) && in_range(*hi),
        Domain::Among(numbers) => !numbers.is_empty() && members_fit(numbers),
    }
}

// Whether a variable of a domain may be declared equal to an atom.
#[tactic(auto, unfolding(crate::specs::Due::given_fits))]
pub fn given_fits(variables: &[Declared], of: &Domain, atom: Atom) -> bool
    ensures { result ≡ given_fits (map declared variables.now) (domain of.now) atom }
{
    match of {
        Domain::Bools => is_boolean(variables, atom),
        _ => is_integer(variables, atom),
    }
}
