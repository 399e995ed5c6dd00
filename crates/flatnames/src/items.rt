// The item of a constraint's name and arguments.
ghost use Rattle.std.specs.Prelude.{◌≡◌, map, option_map};
ghost use Rattle.flatzinc.specs.Items as i;
ghost use Rattle.flatzinc.specs.declared.Atom.{Atom};
ghost use Rattle.flatzinc.specs.Seen.{value, item};
ghost use Rattle.flatnames.specs.Named.{unprefixed, by_code, exclusive, membership, disjunction, of_two, named, item_of};

use flatzinc::{Atom, Item, Value};
use names::code_of;

const PREFIX: &[u8] = b"rows_";

const BOOL_EQ: &[u8] = b"bool_eq";

const BOOL_LE: &[u8] = b"bool_le";

const BOOL_LT: &[u8] = b"bool_lt";

const BOOL_XOR: &[u8] = b"bool_xor";

const SET_IN: &[u8] = b"set_in";

const ARRAY_BOOL_OR: &[u8] = b"array_bool_or";

// A name without the library's rows_.
#[tactic(auto, unfolding(crate::specs::Named::unprefixed, words::specs::Bytes::bytes, integers::specs::Lists::list_of))]
pub fn unprefixed(name: &[u8]) -> &[u8]
    ensures { result.now ≡ unprefixed name.now }
{
    match name.strip_prefix(PREFIX) {
        Some(rest) => rest,
        None => name,
    }
}

// A builtin with a code.
pub fn by_code(name: &[u8], values: Vec<Value>) -> Option<Item>
    ensures { option_map item result ≡ by_code name.now (map value values.items) }
{
    let code = code_of(name)?;
    Some(Item::Coded(code, values))
}

// The two atoms that are all values.
fn two(values: &[Value]) -> Option<(Atom, Atom)>
    ensures { (f : Atom → Atom → i.Item) → option_map (λ p. f p.0 p.1) result ≡ of_two f (map value values.now) }
{
    match values {
        [Value::One(a), Value::One(b)] => Some((*a, *b)),
        _ => None,
    }
}

// array_bool_or of a list and an atom.
fn disjunction(values: Vec<Value>) -> Option<Item>
    ensures { option_map item result ≡ disjunction (map value values.items) }
{
    let r = match values.as_slice() {
        [Value::Many(_), Value::One(r)] => *r,
        _ => return None,
    };
    let mut left = values;
    match left.swap_remove(0) {
        Value::Many(atoms) => Some(Item::ArrayBoolOr(atoms, r)),
        _ => None,
    }
}

// bool_xor of two, or of three of which the last is true; else by its code.
fn exclusive(name: &[u8], values: Vec<Value>) -> Option<Item>
    ensures { option_map item result ≡ exclusive name.now (map value values.items) }
{
    match values.as_slice() {
        [Value::One(a), Value::One(b)] => Some(Item::BoolUnequal(*a, *b)),
        [Value::One(a), Value::One(b), Value::One(Atom::Truth(true))] => {
            Some(Item::BoolUnequal(*a, *b))
        }
        _ => by_code(name, values),
    }
}

// set_in of a range; else by its code.
fn membership(name: &[u8], values: Vec<Value>) -> Option<Item>
    ensures { option_map item result ≡ membership name.now (map value values.items) }
{
    match values.as_slice() {
        [Value::One(x), Value::Range(lo, hi)] => Some(Item::SetInRange(*x, *lo, *hi)),
        _ => by_code(name, values),
    }
}

// The item of a name and arguments.
#[tactic(auto, unfolding(crate::specs::Named::named, words::specs::Bytes::bytes, integers::specs::Lists::list_of))]
fn named(name: &[u8], values: Vec<Value>) -> Option<Item>
    ensures { option_map item result ≡ named name.now (map value values.items) }
{
    if name == BOOL_EQ {
        let (a, b) = two(&values)?;
        return Some(Item::BoolEq(a, b));
    }
    if name == BOOL_LE {
        let (a, b) = two(&values)?;
        return Some(Item::BoolLe(a, b));
    }
    if name == BOOL_LT {
        let (a, b) = two(&values)?;
        return Some(Item::BoolLt(a, b));
    }
    if name == ARRAY_BOOL_OR {
        return disjunction(values);
    }
    if name == BOOL_XOR {
        return exclusive(name, values);
    }
    if name == SET_IN {
        return membership(name, values);
    }
    by_code(name, values)
}

// The item of a constraint; none where the name or the number and forms of its arguments are not those of a builtin.
pub fn item_of(name: &[u8], values: Vec<Value>) -> Option<Item>
    ensures { option_map item result ≡ item_of name.now (map value values.items) }
{
    named(unprefixed(name), values)
}

// Whether a name, without the library's rows_, is that of a builtin. For messages alone.
pub fn has_code(builtin: &[u8]) -> bool {
    builtin == BOOL_EQ
        || builtin == BOOL_LE
        || builtin == BOOL_LT
        || builtin == ARRAY_BOOL_OR
        || code_of(builtin).is_some()
}
