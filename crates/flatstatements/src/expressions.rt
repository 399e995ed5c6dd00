// Literals, elements and expressions.
ghost use Rattle.std.specs.Prelude.{◌≡◌, map, drop, option_map, OnOk, Some, ◌++◌, List, ◌∷◌, [], ℤ};
ghost use Rattle.flatzinc.specs.Answer.{Gives};
ghost use Rattle.flattokens.specs.Token.{token as seen, Token as Seen};
ghost use Rattle.flatstatements.specs.Statement.{literal_of, element_of, expression_of};
ghost use Rattle.flatstatements.specs.Front.{number_at};
ghost use Rattle.flatstatements.specs.Reading.{literal_named, literal_from, literal_at, number_in, separator_at, some_at, list_at, members_at, range_from, element_at, elements_at, expression_at, arguments_at};

use crate::front::{behind_dots, behind_sign, number_at, token_at};
use crate::messages::{expected, instead, no_literal, plain};
use crate::{Element, Expression, Literal};
use flattokens::Token;
use flatzinc::trouble::Trouble;
use std::alloc::{AllocError, Global};

// The literal that a name is.
#[tactic(auto, unfolding(crate::specs::Reading::literal_named, words::specs::Bytes::bytes, integers::specs::Lists::list_of))]
fn literal_named(name: &[u8]) -> Literal<'_>
    ensures { literal_of result ≡ literal_named name.now }
{
    if name == b"true".as_slice() {
        return Literal::Truth(true);
    }
    if name == b"false".as_slice() {
        return Literal::Truth(false);
    }
    Literal::Name(name)
}

// The literal that a token is.
#[tactic(auto, unfolding(crate::specs::Reading::literal_from))]
fn literal_from<'a>(token: &Token<'a>) -> Option<Literal<'a>>
    ensures { option_map literal_of result ≡ literal_from (seen token.now) }
{
    match token {
        Token::Name(name) => Some(literal_named(name)),
        Token::Number(n) => Some(Literal::Number(*n)),
        Token::Float(bytes) => Some(Literal::Float(bytes)),
        _ => None,
    }
}

// The literal at a place.
#[tactic(auto, unfolding(crate::specs::Reading::literal_at))]
pub(crate) fn literal_at<'a>(
    alloc: Global,
    tokens: &[Token<'a>],
    at: usize,
) -> Result<(Literal<'a>, usize), Trouble>
    ensures { Gives (λ x. (literal_of x.0, drop x.1 (map seen tokens.now))) result (literal_at (drop at (map seen tokens.now))) }
{
    let Some((token, next)) = token_at(tokens, at) else {
        return Err(Trouble::Fault(no_literal(alloc, tokens, at)?));
    };
    let Some(literal) = literal_from(&token) else {
        return Err(Trouble::Fault(no_literal(alloc, tokens, at)?));
    };
    Ok((literal, next))
}

// Whether a comma stands at a place, or else the closing bracket; and the place behind it.
#[tactic(auto, unfolding(crate::specs::Reading::separator_at))]
fn separator_at(
    alloc: Global,
    close: u8,
    tokens: &[Token],
    at: usize,
) -> Result<(bool, usize), Trouble>
    ensures { Gives (λ x. (x.0, drop x.1 (map seen tokens.now))) result (separator_at close (drop at (map seen tokens.now))) }
{
    if let Some(next) = behind_sign(tokens, at, b',') {
        return Ok((true, next));
    }
    if let Some(next) = behind_sign(tokens, at, close) {
        return Ok((false, next));
    }
    Err(Trouble::Fault(expected(alloc, ",", tokens, at)?))
}

// A number at a place, of a set.
fn member_at(alloc: Global, tokens: &[Token], at: usize) -> Result<(i64, usize), Trouble>
    ensures { Gives (λ x. (x.0, drop x.1 (map seen tokens.now))) result (number_at (drop at (map seen tokens.now))) }
{
    match number_at(tokens, at) {
        Some(found) => Ok(found),
        None => Err(Trouble::Fault(plain(alloc, "a set of other things than numbers")?)),
    }
}

// The number at a place where one stands.
fn number_there(tokens: &[Token], at: usize) -> i64
    ensures { (n : ℤ) (rest : List Seen) → number_at (drop at (map seen tokens.now)) ≡ Some (n, rest) → result ≡ n }
{
    match number_at(tokens, at) {
        Some((n, _)) => n,
        None => 0,
    }
}

// A number behind others.
fn put(numbers: &mut Vec<i64>, n: i64) -> Result<(), AllocError>
    ensures { OnOk result (numbers.new.items ≡ numbers.old.items ++ (n ∷ [])) }
{
    numbers.push(n)?;
    Ok(())
}

// Numbers, elements, expressions: some of them, a comma between two, and the closing bracket.
fn some_members(alloc: Global, tokens: &[Token], at: usize) -> Result<(Vec<i64>, usize), Trouble>
    ensures { Gives (λ x. (x.0.items, drop x.1 (map seen tokens.now))) result (some_at number_at 125 (drop at (map seen tokens.now))) }
{
    let mut found = Vec::new(alloc);
    let mut place = at;
    let count = tokens.len().saturating_sub(at);
    for _ in 0..count {
        let item = member_at(alloc, tokens, place)?;
        put(&mut found, number_there(tokens, place))?;
        let (goes_on, next) = separator_at(alloc, b'}', tokens, item.1)?;
        if !goes_on {
            return Ok((found, next));
        }
        place = next;
    }
    Err(Trouble::Fault(expected(alloc, "}", tokens, place)?))
}

// A set behind its opening bracket.
#[tactic(auto, unfolding(crate::specs::Reading::members_at, crate::specs::Reading::list_at))]
pub(crate) fn members_at(
    alloc: Global,
    tokens: &[Token],
    at: usize,
) -> Result<(Vec<i64>, usize), Trouble>
    ensures { Gives (λ x. (x.0.items, drop x.1 (map seen tokens.now))) result (members_at (drop at (map seen tokens.now))) }
{
    if let Some(next) = behind_sign(tokens, at, b'}') {
        return Ok((Vec::new(alloc), next));
    }
    some_members(alloc, tokens, at)
}

// The number that a literal is.
#[tactic(auto, unfolding(crate::specs::Reading::number_in))]
fn number_in(literal: Literal) -> Option<i64>
    ensures { result ≡ number_in (literal_of literal.entry) }
{
    match literal {
        Literal::Number(n) => Some(n),
        _ => None,
    }
}

// A range, behind its dots.
#[tactic(auto, unfolding(crate::specs::Reading::range_from))]
fn range_from<'a>(
    alloc: Global,
    first: Literal<'a>,
    tokens: &[Token<'a>],
    at: usize,
) -> Result<(Element<'a>, usize), Trouble>
    ensures { Gives (λ x. (element_of x.0, drop x.1 (map seen tokens.now))) result (range_from (literal_of first.entry) (drop at (map seen tokens.now))) }
{
    let Some(lo) = number_in(first) else {
        let fault = "a range of other things than numbers";
        return Err(Trouble::Fault(plain(alloc, fault)?));
    };
    let Some((hi, next)) = number_at(tokens, at) else {
        let fault = instead(alloc, tokens, at, "where a range ends")?;
        return Err(Trouble::Fault(fault));
    };
    Ok((Element::Range(lo, hi), next))
}

// An element: a set, a range, a literal.
#[tactic(auto, unfolding(crate::specs::Reading::element_at))]
fn element_at<'a>(
    alloc: Global,
    tokens: &[Token<'a>],
    at: usize,
) -> Result<(Element<'a>, usize), Trouble>
    ensures { Gives (λ x. (element_of x.0, drop x.1 (map seen tokens.now))) result (element_at (drop at (map seen tokens.now))) }
{
    if let Some(inside) = behind_sign(tokens, at, b'{') {
        let (members, next) = members_at(alloc, tokens, inside)?;
        return Ok((Element::Members(members), next));
    }
    let (literal, next) = literal_at(alloc, tokens, at)?;
    if let Some(behind) = behind_dots(tokens, next) {
        return range_from(alloc, literal, tokens, behind);
    }
    Ok((Element::Literal(literal), next))
}

fn some_elements<'a>(
    alloc: Global,
    tokens: &[Token<'a>],
    at: usize,
) -> Result<(Vec<Element<'a>>, usize), Trouble>
    ensures { Gives (λ x. (map element_of x.0.items, drop x.1 (map seen tokens.now))) result (some_at element_at 93 (drop at (map seen tokens.now))) }
{
    let mut found = Vec::new(alloc);
    let mut place = at;
    let count = tokens.len().saturating_sub(at);
    for _ in 0..count {
        let (item, behind) = element_at(alloc, tokens, place)?;
        found.push(item)?;
        let (goes_on, next) = separator_at(alloc, b']', tokens, behind)?;
        if !goes_on {
            return Ok((found, next));
        }
        place = next;
    }
    Err(Trouble::Fault(expected(alloc, "]", tokens, place)?))
}

// A list behind its opening bracket.
#[tactic(auto, unfolding(crate::specs::Reading::elements_at, crate::specs::Reading::list_at))]
fn elements_at<'a>(
    alloc: Global,
    tokens: &[Token<'a>],
    at: usize,
) -> Result<(Vec<Element<'a>>, usize), Trouble>
    ensures { Gives (λ x. (map element_of x.0.items, drop x.1 (map seen tokens.now))) result (elements_at (drop at (map seen tokens.now))) }
{
    if let Some(next) = behind_sign(tokens, at, b']') {
        return Ok((Vec::new(alloc), next));
    }
    some_elements(alloc, tokens, at)
}

// An expression: a list or an element.
#[tactic(auto, unfolding(crate::specs::Reading::expression_at))]
pub(crate) fn expression_at<'a>(
    alloc: Global,
    tokens: &[Token<'a>],
    at: usize,
) -> Result<(Expression<'a>, usize), Trouble>
    ensures { Gives (λ x. (expression_of x.0, drop x.1 (map seen tokens.now))) result (expression_at (drop at (map seen tokens.now))) }
{
    if let Some(inside) = behind_sign(tokens, at, b'[') {
        let (elements, next) = elements_at(alloc, tokens, inside)?;
        return Ok((Expression::Many(elements), next));
    }
    let (element, next) = element_at(alloc, tokens, at)?;
    Ok((Expression::One(element), next))
}

fn some_arguments<'a>(
    alloc: Global,
    tokens: &[Token<'a>],
    at: usize,
) -> Result<(Vec<Expression<'a>>, usize), Trouble>
    ensures { Gives (λ x. (map expression_of x.0.items, drop x.1 (map seen tokens.now))) result (some_at expression_at 41 (drop at (map seen tokens.now))) }
{
    let mut found = Vec::new(alloc);
    let mut place = at;
    let count = tokens.len().saturating_sub(at);
    for _ in 0..count {
        let (item, behind) = expression_at(alloc, tokens, place)?;
        found.push(item)?;
        let (goes_on, next) = separator_at(alloc, b')', tokens, behind)?;
        if !goes_on {
            return Ok((found, next));
        }
        place = next;
    }
    Err(Trouble::Fault(expected(alloc, ")", tokens, place)?))
}

// Arguments behind their opening bracket.
#[tactic(auto, unfolding(crate::specs::Reading::arguments_at, crate::specs::Reading::list_at))]
pub(crate) fn arguments_at<'a>(
    alloc: Global,
    tokens: &[Token<'a>],
    at: usize,
) -> Result<(Vec<Expression<'a>>, usize), Trouble>
    ensures { Gives (λ x. (map expression_of x.0.items, drop x.1 (map seen tokens.now))) result (arguments_at (drop at (map seen tokens.now))) }
{
    if let Some(next) = behind_sign(tokens, at, b')') {
        return Ok((Vec::new(alloc), next));
    }
    some_arguments(alloc, tokens, at)
}
