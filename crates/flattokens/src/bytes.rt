// Bytes by their use, and how many stand at the front of a list.
ghost use Rattle.std.specs.Prelude.{◌≡◌, ◌≤◌, Bool, false, ℕ, length, drop, IfSome};
ghost use Rattle.tokens.specs.Byte.{is_digit, run};
ghost use Rattle.flattokens.specs.Byte.{is_gap, is_sign, begins_name, begins_digits, begins_number};
ghost use Rattle.flattokens.specs.Reading.{fraction, hyphen_or_plus, exponent, decimals, closes, escapes, text_length};

use tokens::{is_digit, is_in_name};
use words::list::at_or;

// Whether a byte is a gap or begins a comment.
#[tactic(auto, unfolding(crate::specs::Byte::is_gap, words::specs::Bytes::bytes, integers::specs::Lists::any, integers::specs::Lists::list_of))]
pub(crate) fn is_gap(b: u8) -> bool
    ensures { result ≡ is_gap b }
{
    matches!(b, b' ' | b'\t' | b'\r' | b'\n' | b'%')
}

// Whether a byte is a token by itself.
#[tactic(auto, unfolding(crate::specs::Byte::is_sign, words::specs::Bytes::bytes, integers::specs::Lists::any, integers::specs::Lists::list_of))]
pub(crate) fn is_sign(b: u8) -> bool
    ensures { result ≡ is_sign b }
{
    matches!(
        b,
        b'(' | b')' | b'[' | b']' | b'{' | b'}' | b',' | b':' | b'='
    )
}

// Whether a name, digits, a number begin so.
#[tactic(auto, unfolding(crate::specs::Byte::begins_name))]
pub(crate) fn begins_name(b: u8) -> bool
    ensures { result ≡ begins_name b }
{
    is_in_name(b) && !is_digit(b)
}

#[tactic(auto, unfolding(crate::specs::Byte::begins_digits, tokens::specs::Byte::front))]
pub(crate) fn begins_digits(bytes: &[u8]) -> bool
    ensures { result ≡ begins_digits bytes.now }
{
    is_digit(at_or(bytes, 0, 0))
}

#[tactic(auto, unfolding(crate::specs::Byte::begins_number))]
pub(crate) fn begins_number(b: u8, rest: &[u8]) -> bool
    ensures { result ≡ begins_number b rest.now }
{
    is_digit(b) || b == b'-' && begins_digits(rest)
}

// The bytes after so many.
pub(crate) fn after(bytes: &[u8], count: usize) -> &[u8]
    ensures { result.now ≡ drop count bytes.now }
{
    if bytes.len() < count {
        return &[];
    }
    &bytes[count..]
}

// How many bytes at the front pass a test.
pub(crate) fn run_of<F: Fn(u8) -> bool>(bytes: &[u8], test: F) -> usize
    requires { F.IsAlwaysCallable test }
    ensures value { (t : ℕ → Bool) → ((b : ℕ) (r : Bool) → F.post test b r → r ≡ t b) → result ≡ run t bytes.now }
    ensures size { result ≤ length bytes.now }
{
    bytes.iter().take_while(|&&b| test(b)).count()
}

// How many digits stand at the front.
pub(crate) fn digits(bytes: &[u8]) -> usize
    ensures value { result ≡ run is_digit bytes.now }
    ensures size { result ≤ length bytes.now }
{
    run_of(bytes, is_digit)
}

// How many bytes a fraction has at the front, how many an exponent.
#[tactic(auto, unfolding(crate::specs::Reading::fraction))]
fn fraction(bytes: &[u8]) -> usize
    ensures value { result ≡ fraction bytes.now }
    ensures size { result ≤ length bytes.now }
{
    let [b, rest @ ..] = bytes else {
        return 0;
    };
    if *b == b'.' && begins_digits(rest) {
        return 1 + digits(rest);
    }
    0
}

#[tactic(auto, unfolding(crate::specs::Reading::hyphen_or_plus, tokens::specs::Byte::front))]
fn hyphen_or_plus(bytes: &[u8]) -> usize
    ensures value { result ≡ hyphen_or_plus bytes.now }
    ensures size { result ≤ length bytes.now }
{
    let b = at_or(bytes, 0, 0);
    if b == b'-' || b == b'+' {
        return 1;
    }
    0
}

#[tactic(auto, unfolding(crate::specs::Reading::exponent))]
fn exponent(bytes: &[u8]) -> usize
    ensures value { result ≡ exponent bytes.now }
    ensures size { result ≤ length bytes.now }
{
    let [b, rest @ ..] = bytes else {
        return 0;
    };
    let sign = hyphen_or_plus(rest);
    let rest = after(rest, sign);
    if (*b == b'e' || *b == b'E') && begins_digits(rest) {
        return 1 + sign + digits(rest);
    }
    0
}

// How many bytes stand behind the digits of a float.
#[tactic(auto, unfolding(crate::specs::Reading::decimals))]
pub(crate) fn decimals(bytes: &[u8]) -> usize
    ensures value { result ≡ decimals bytes.now }
    ensures size { result ≤ length bytes.now }
{
    let front = fraction(bytes);
    front + exponent(after(bytes, front))
}

// Whether a byte closes a text, and whether it escapes the one behind it.
#[tactic(auto, unfolding(crate::specs::Reading::closes))]
fn closes(escaped: bool, b: u8) -> bool
    ensures { result ≡ closes escaped b }
{
    b == b'"' && !escaped
}

#[tactic(auto, unfolding(crate::specs::Reading::escapes))]
fn escapes(escaped: bool, b: u8) -> bool
    ensures { result ≡ escapes escaped b }
{
    b == b'\\' && !escaped
}

// How many bytes a text has behind its opening quote.
pub(crate) fn text_length(bytes: &[u8]) -> Option<usize>
    ensures value { result ≡ text_length false bytes.now }
    ensures size { IfSome result (λ n. n ≤ length bytes.now) }
{
    let mut escaped = false;
    for (i, &b) in bytes.iter().enumerate() {
        if b == b'\n' {
            return None;
        }
        if closes(escaped, b) {
            return Some(i + 1);
        }
        escaped = escapes(escaped, b);
    }
    None
}
