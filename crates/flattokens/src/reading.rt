// The tokens of a statement.
ghost use Rattle.std.specs.Prelude.{◌≡◌, ◌≤◌, ◌<◌, ◌+◌, ◌*◌, ◌^◌, false, length, map, option_map, IfOk, IfSome, Some};
ghost use Rattle.flatzinc.specs.Answer.{Gives};
ghost use Rattle.tokens.specs.Byte.{front};
ghost use Rattle.flattokens.specs.Byte.{is_gap};
ghost use Rattle.flattokens.specs.Token.{token};
ghost use Rattle.flattokens.specs.Lexes.{Lexes};
ghost use Rattle.flattokens.specs.Reading.{digits_from, number_value, number_at, text_at, name_at, sign_at, token_at, gap_length, statement_from, next_statement};

use crate::Token;
use crate::bytes::{
    after, begins_name, begins_number, decimals, digits, is_gap, is_sign, run_of, text_length,
};
use crate::messages::{no_token, open_text, too_long, within_statement};
use flatzinc::trouble::Trouble;
use std::alloc::Global;
use tokens::is_in_name;
use words::list::at_or;

// The number that at most 17 digits spell.
fn digits_from(spelled: &[u8]) -> u64
    requires { length spelled.now ≤ 17 }
    ensures value { result ≡ digits_from 0 spelled.now }
    ensures size { result + 23 ≤ 23 * 10 ^ 17 }
{
    let mut n: u64 = 0;
    for &b in spelled {
        n = n * 10 + b.saturating_sub(b'0') as u64;
    }
    n
}

// The number that a token spells.
#[tactic(auto, unfolding(crate::specs::Reading::number_value, crate::specs::Reading::digits_value))]
fn number_value(alloc: Global, spelled: &[u8]) -> Result<i64, Trouble>
    ensures { Gives (λ z. z) result (number_value spelled.now) }
{
    let [b, rest @ ..] = spelled else {
        return Err(Trouble::Fault(too_long(alloc, 0)?));
    };
    if *b == b'-' {
        if 17 < rest.len() {
            return Err(Trouble::Fault(too_long(alloc, rest.len())?));
        }
        return Ok(-(digits_from(rest) as i64));
    }
    if 17 < spelled.len() {
        return Err(Trouble::Fault(too_long(alloc, spelled.len())?));
    }
    Ok(digits_from(spelled) as i64)
}

// The token at the front, and how many bytes it has: a name; a number or a float; a text; dots, colons or a sign.
#[tactic(auto, unfolding(crate::specs::Reading::name_at))]
fn name_at(bytes: &[u8]) -> (Token<'_>, usize)
    requires { 0 < length bytes.now }
    ensures read { name_at bytes.now ≡ Some (token result.0, result.1) }
    ensures size { (0 < result.1) × (result.1 ≤ length bytes.now) }
{
    let count = 1 + run_of(after(bytes, 1), is_in_name);
    (Token::Name(&bytes[..count]), count)
}

#[tactic(auto, unfolding(crate::specs::Reading::number_at))]
fn number_at(alloc: Global, bytes: &[u8]) -> Result<(Token<'_>, usize), Trouble>
    requires { 0 < length bytes.now }
    ensures read { Gives (λ x. (token x.0, x.1)) result (number_at bytes.now) }
    ensures size { IfOk result (λ x. (0 < x.1) × (x.1 ≤ length bytes.now)) }
{
    let count = 1 + digits(after(bytes, 1));
    let more = decimals(after(bytes, count));
    if more == 0 {
        let n = number_value(alloc, &bytes[..count])?;
        return Ok((Token::Number(n), count));
    }
    Ok((Token::Float(&bytes[..count + more]), count + more))
}

#[tactic(auto, unfolding(crate::specs::Reading::text_at))]
fn text_at(alloc: Global, bytes: &[u8]) -> Result<(Token<'_>, usize), Trouble>
    requires { 0 < length bytes.now }
    ensures read { Gives (λ x. (token x.0, x.1)) result (text_at bytes.now) }
    ensures size { IfOk result (λ x. (0 < x.1) × (x.1 ≤ length bytes.now)) }
{
    let Some(behind) = text_length(after(bytes, 1)) else {
        return Err(Trouble::Fault(open_text(alloc)?));
    };
    Ok((Token::Text(&bytes[..1 + behind]), 1 + behind))
}

#[tactic(auto, unfolding(crate::specs::Reading::sign_at, tokens::specs::Byte::front))]
fn sign_at<'a>(alloc: Global, bytes: &[u8]) -> Result<(Token<'a>, usize), Trouble>
    requires { 0 < length bytes.now }
    ensures read { Gives (λ x. (token x.0, x.1)) result (sign_at bytes.now) }
    ensures size { IfOk result (λ x. (0 < x.1) × (x.1 ≤ length bytes.now)) }
{
    let first = at_or(bytes, 0, 0);
    let second = at_or(after(bytes, 1), 0, 0);
    if first == b'.' && second == b'.' {
        return Ok((Token::Dots, 2));
    }
    if first == b':' && second == b':' {
        return Ok((Token::Colons, 2));
    }
    if is_sign(first) {
        return Ok((Token::Sign(first), 1));
    }
    Err(Trouble::Fault(no_token(alloc, first)?))
}

#[tactic(auto, unfolding(crate::specs::Reading::token_at, tokens::specs::Byte::front))]
fn token_at(alloc: Global, bytes: &[u8]) -> Result<(Token<'_>, usize), Trouble>
    requires { 0 < length bytes.now }
    ensures read { Gives (λ x. (token x.0, x.1)) result (token_at bytes.now) }
    ensures size { IfOk result (λ x. (0 < x.1) × (x.1 ≤ length bytes.now)) }
{
    let first = at_or(bytes, 0, 0);
    if begins_name(first) {
        return Ok(name_at(bytes));
    }
    if begins_number(first, after(bytes, 1)) {
        return number_at(alloc, bytes);
    }
    if first == b'"' {
        return text_at(alloc, bytes);
    }
    sign_at(alloc, bytes)
}

// How many bytes a gap has.
#[tactic(auto, unfolding(crate::specs::Reading::gap_length, tokens::specs::Byte::front, tokens::specs::Byte::in_comment))]
fn gap_length(bytes: &[u8]) -> usize
    requires { 0 < length bytes.now }
    ensures value { result ≡ gap_length bytes.now }
    ensures size { (0 < result) × (result ≤ length bytes.now) }
{
    if at_or(bytes, 0, 0) == b'%' {
        return 1 + run_of(after(bytes, 1), |c| c != b'\n');
    }
    1
}

// The bytes behind the gaps at the front.
fn past_gaps(bytes: &[u8]) -> &[u8]
    ensures same { statement_from 0 result.now ≡ statement_from 0 bytes.now }
    ensures no_gap { is_gap (front result.now) ≡ false }
    ensures size { length result.now ≤ length bytes.now }
{
    let mut rest = bytes;
    while is_gap(at_or(rest, 0, 0)) {
        rest = after(rest, gap_length(rest));
    }
    rest
}

// The tokens up to the next semicolon, as the definition has them.
#[tactic(auto, unfolding(crate::specs::Reading::next_statement))]
fn tokens_of<'a>(
    alloc: Global,
    bytes: &'a [u8],
) -> Result<Option<(Vec<Token<'a>>, &'a [u8])>, Trouble>
    ensures read { Gives (option_map (λ x. (map token x.0.items, x.1.now))) result (next_statement bytes.now) }
    ensures size { IfOk result (λ o. IfSome o (λ x. length x.1.now < length bytes.now)) }
{
    let mut tokens = Vec::new(alloc);
    let mut rest = past_gaps(bytes);
    while !rest.is_empty() {
        if at_or(rest, 0, 0) == b';' {
            return Ok(Some((tokens, after(rest, 1))));
        }
        let (token, count) = token_at(alloc, rest)?;
        tokens.push(token)?;
        rest = past_gaps(after(rest, count));
    }
    if tokens.is_empty() {
        return Ok(None);
    }
    Err(Trouble::Fault(within_statement(alloc)?))
}

// The tokens up to the next semicolon and the bytes behind it, or that nothing but gaps is left.
pub fn next_statement<'a>(
    alloc: Global,
    bytes: &'a [u8],
) -> Result<Option<(Vec<Token<'a>>, &'a [u8])>, Trouble>
    ensures read { Gives (option_map (λ x. (map token x.0.items, x.1.now))) result (next_statement bytes.now) }
    // What is read is spelled so.
    ensures lexes { IfOk result (λ o. IfSome o (λ x. Lexes bytes.now (map token x.0.items) x.1.now)) }
    ensures size { IfOk result (λ o. IfSome o (λ x. length x.1.now < length bytes.now)) }
{
    tokens_of(alloc, bytes)
}
