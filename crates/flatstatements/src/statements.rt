// Statements.
ghost use Rattle.std.specs.Prelude.{◌≡◌, ◌≤◌, map, drop, option_map, length, IfOk};
ghost use Rattle.std.specs.List.{prefix_len};
ghost use Rattle.flatzinc.specs.Answer.{Gives};
ghost use Rattle.flattokens.specs.Token.{token as seen};
ghost use Rattle.flatstatements.specs.Statement.{literal_of, range_of, goal_of, statement_of};
ghost use Rattle.flatstatements.specs.Front.{begins, sign_at, name_at, ended};
ghost use Rattle.flatstatements.specs.Printing.{tokens_of};
ghost use Rattle.flatstatements.specs.Reading.{predicate_read, bounds_at, domain_at, given_read, variable_read, constraint_read, goal_read, solve_read, begins_kind, is_kind_sign, in_kind, parameter_read, statement_read};

use crate::expressions::{arguments_at, expression_at, literal_at, members_at};
use crate::front::{
    behind_dots, behind_sign, behind_word, is_word, name_at, number_at, rest_at, token_at,
};
use crate::messages::{expected, instead, no_domain};
use crate::notes::{Place, front_of, notes_at, notes_length};
use crate::{Goal, Literal, Range, Statement};
use flattokens::Token;
use flatzinc::trouble::Trouble;
use std::alloc::Global;

// That nothing stands at a place any more.
#[tactic(auto, unfolding(crate::specs::Front::ended))]
fn end_at(alloc: Global, tokens: &[Token], at: usize) -> Result<(), Trouble>
    ensures { Gives (λ u. u) result (ended (drop at (map seen tokens.now))) }
{
    match token_at(tokens, at) {
        Some(_) => Err(Trouble::Fault(expected(alloc, ";", tokens, at)?)),
        None => Ok(()),
    }
}

// A sign is taken, a name.
#[tactic(auto, unfolding(crate::specs::Front::sign_at))]
fn sign_at(
    alloc: Global,
    tokens: &[Token],
    at: usize,
    sign: u8,
    text: &str,
) -> Result<usize, Trouble>
    ensures { Gives (λ n. drop n (map seen tokens.now)) result (sign_at sign (drop at (map seen tokens.now))) }
{
    match behind_sign(tokens, at, sign) {
        Some(next) => Ok(next),
        None => Err(Trouble::Fault(expected(alloc, text, tokens, at)?)),
    }
}

fn due_name<'a>(
    alloc: Global,
    tokens: &[Token<'a>],
    at: usize,
) -> Result<(&'a [u8], usize), Trouble>
    ensures { Gives (λ x. (x.0.now, drop x.1 (map seen tokens.now))) result (name_at (drop at (map seen tokens.now))) }
{
    match name_at(tokens, at) {
        Some(found) => Ok(found),
        None => Err(Trouble::Fault(instead(alloc, tokens, at, "where a name is due")?)),
    }
}

// A predicate is read over.
#[tactic(auto, unfolding(crate::specs::Reading::predicate_read))]
fn predicate<'a>(alloc: Global, tokens: &[Token<'a>]) -> Result<Statement<'a>, Trouble>
    ensures { Gives statement_of result (predicate_read (map seen tokens.now)) }
{
    let count = notes_length(alloc, Place::BehindColons, tokens)?;
    end_at(alloc, tokens, count)?;
    let told = front_of(alloc, tokens, count)?;
    Ok(Statement::Predicate(told))
}

// LO..HI
#[tactic(auto, unfolding(crate::specs::Reading::bounds_at))]
fn bounds(alloc: Global, tokens: &[Token], at: usize) -> Result<(Range, usize), Trouble>
    ensures { Gives (λ x. (range_of x.0, drop x.1 (map seen tokens.now))) result (bounds_at (drop at (map seen tokens.now))) }
{
    let Some((lo, next)) = number_at(tokens, at) else {
        return Err(Trouble::Fault(no_domain(alloc, tokens, at)?));
    };
    let Some(behind) = behind_dots(tokens, next) else {
        return Err(Trouble::Fault(no_domain(alloc, tokens, at)?));
    };
    let Some((hi, next)) = number_at(tokens, behind) else {
        let fault = instead(alloc, tokens, behind, "where a range ends")?;
        return Err(Trouble::Fault(fault));
    };
    Ok((Range::Between(lo, hi), next))
}

// bool, {N,..}, LO..HI
#[tactic(auto, unfolding(crate::specs::Reading::domain_at, words::specs::Bytes::bytes, integers::specs::Lists::list_of))]
fn domain(alloc: Global, tokens: &[Token], at: usize) -> Result<(Range, usize), Trouble>
    ensures { Gives (λ x. (range_of x.0, drop x.1 (map seen tokens.now))) result (domain_at (drop at (map seen tokens.now))) }
{
    if let Some(next) = behind_word(tokens, at, b"bool") {
        return Ok((Range::Bool, next));
    }
    if let Some(inside) = behind_sign(tokens, at, b'{') {
        let (members, next) = members_at(alloc, tokens, inside)?;
        return Ok((Range::Members(members), next));
    }
    bounds(alloc, tokens, at)
}

// The value that a variable is declared equal to, up to the end.
#[tactic(auto, unfolding(crate::specs::Reading::given_read))]
fn given<'a>(alloc: Global, tokens: &[Token<'a>], at: usize) -> Result<Option<Literal<'a>>, Trouble>
    ensures { Gives (λ o. option_map literal_of o) result (given_read (drop at (map seen tokens.now))) }
{
    if let Some(behind) = behind_sign(tokens, at, b'=') {
        let (literal, next) = literal_at(alloc, tokens, behind)?;
        end_at(alloc, tokens, next)?;
        return Ok(Some(literal));
    }
    end_at(alloc, tokens, at)?;
    Ok(None)
}

#[tactic(auto, unfolding(crate::specs::Reading::variable_read))]
fn variable<'a>(alloc: Global, tokens: &[Token<'a>], at: usize) -> Result<Statement<'a>, Trouble>
    ensures { Gives statement_of result (variable_read (drop at (map seen tokens.now))) }
{
    let (range, at) = domain(alloc, tokens, at)?;
    let at = sign_at(alloc, tokens, at, b':', ":")?;
    let (name, at) = due_name(alloc, tokens, at)?;
    let (notes, at) = notes_at(alloc, tokens, at)?;
    let given = given(alloc, tokens, at)?;
    Ok(Statement::Variable {
        range,
        name,
        notes,
        given,
    })
}

#[tactic(auto, unfolding(crate::specs::Reading::constraint_read))]
fn constraint<'a>(alloc: Global, tokens: &[Token<'a>], at: usize) -> Result<Statement<'a>, Trouble>
    ensures { Gives statement_of result (constraint_read (drop at (map seen tokens.now))) }
{
    let (builtin, at) = due_name(alloc, tokens, at)?;
    let at = sign_at(alloc, tokens, at, b'(', "(")?;
    let (arguments, at) = arguments_at(alloc, tokens, at)?;
    let (notes, at) = notes_at(alloc, tokens, at)?;
    end_at(alloc, tokens, at)?;
    Ok(Statement::Constraint {
        builtin,
        arguments,
        notes,
    })
}

// What a solve item asks for, up to the end.
#[tactic(auto, unfolding(crate::specs::Reading::goal_read, words::specs::Bytes::bytes, integers::specs::Lists::list_of))]
fn goal<'a>(alloc: Global, tokens: &[Token<'a>], at: usize) -> Result<Goal<'a>, Trouble>
    ensures { Gives goal_of result (goal_read (drop at (map seen tokens.now))) }
{
    if let Some(next) = behind_word(tokens, at, b"satisfy") {
        end_at(alloc, tokens, next)?;
        return Ok(Goal::Satisfy);
    }
    if let Some(behind) = behind_word(tokens, at, b"minimize") {
        let (literal, next) = literal_at(alloc, tokens, behind)?;
        end_at(alloc, tokens, next)?;
        return Ok(Goal::Minimize(literal));
    }
    if let Some(behind) = behind_word(tokens, at, b"maximize") {
        let (literal, next) = literal_at(alloc, tokens, behind)?;
        end_at(alloc, tokens, next)?;
        return Ok(Goal::Maximize(literal));
    }
    Err(Trouble::Fault(expected(alloc, "satisfy", tokens, at)?))
}

#[tactic(auto, unfolding(crate::specs::Reading::solve_read))]
fn solve<'a>(alloc: Global, tokens: &[Token<'a>], at: usize) -> Result<Statement<'a>, Trouble>
    ensures { Gives statement_of result (solve_read (drop at (map seen tokens.now))) }
{
    let (notes, at) = notes_at(alloc, tokens, at)?;
    let goal = goal(alloc, tokens, at)?;
    Ok(Statement::Solve { notes, goal })
}

// Whether a parameter's type begins with a token, and whether it goes on with one.
#[tactic(auto, unfolding(crate::specs::Reading::begins_kind, words::specs::Bytes::bytes, integers::specs::Lists::list_of))]
fn begins_kind(token: &Token) -> bool
    ensures { result ≡ begins_kind (seen token.now) }
{
    is_word(token, b"array")
        || is_word(token, b"int")
        || is_word(token, b"bool")
        || is_word(token, b"set")
        || is_word(token, b"float")
}

#[tactic(auto, unfolding(crate::specs::Reading::is_kind_sign, words::specs::Bytes::bytes, integers::specs::Lists::list_of, integers::specs::Lists::any))]
fn is_kind_sign(b: u8) -> bool
    ensures { result ≡ is_kind_sign b }
{
    matches!(b, b'[' | b']' | b'{' | b'}' | b',')
}

#[tactic(auto, unfolding(crate::specs::Reading::in_kind, words::specs::Bytes::bytes, integers::specs::Lists::list_of))]
fn in_kind(token: &Token) -> bool
    ensures { result ≡ in_kind (seen token.now) }
{
    match token {
        Token::Name(_) => begins_kind(token) || is_word(token, b"of") || is_word(token, b"var"),
        Token::Number(_) => true,
        Token::Float(_) => true,
        Token::Text(_) => false,
        Token::Dots => true,
        Token::Colons => false,
        Token::Sign(b) => is_kind_sign(*b),
    }
}

// How many tokens in front are of a parameter's type.
fn kind_length(tokens: &[Token]) -> usize
    ensures value { result ≡ prefix_len in_kind (map seen tokens.now) }
    ensures size { result ≤ length tokens.now }
{
    for (i, token) in tokens.iter().enumerate() {
        if !in_kind(token) {
            return i;
        }
    }
    tokens.len()
}

#[tactic(auto, unfolding(crate::specs::Reading::parameter_read))]
fn parameter<'a>(alloc: Global, tokens: &[Token<'a>]) -> Result<Statement<'a>, Trouble>
    ensures { Gives statement_of result (parameter_read (map seen tokens.now)) }
{
    let count = kind_length(tokens);
    let at = sign_at(alloc, tokens, count, b':', ":")?;
    let (name, at) = due_name(alloc, tokens, at)?;
    let (notes, at) = notes_at(alloc, tokens, at)?;
    let at = sign_at(alloc, tokens, at, b'=', "=")?;
    let (value, at) = expression_at(alloc, tokens, at)?;
    end_at(alloc, tokens, at)?;
    let kind = front_of(alloc, tokens, count)?;
    Ok(Statement::Parameter {
        kind,
        name,
        notes,
        value,
    })
}

// Whether a parameter begins.
#[tactic(auto, unfolding(crate::specs::Front::begins))]
fn begins_parameter(tokens: &[Token]) -> bool
    ensures { result ≡ begins begins_kind (map seen tokens.now) }
{
    match token_at(tokens, 0) {
        Some((first, _)) => begins_kind(&first),
        None => false,
    }
}

// The statement that a list of tokens is, as the definition has it.
#[tactic(auto, unfolding(crate::specs::Reading::statement_read, words::specs::Bytes::bytes, integers::specs::Lists::list_of))]
fn whole<'a>(alloc: Global, tokens: &[Token<'a>]) -> Result<Statement<'a>, Trouble>
    ensures { Gives statement_of result (statement_read (map seen tokens.now)) }
{
    if let Some(next) = behind_word(tokens, 0, b"constraint") {
        return constraint(alloc, tokens, next);
    }
    if let Some(next) = behind_word(tokens, 0, b"var") {
        return variable(alloc, tokens, next);
    }
    if begins_parameter(tokens) {
        return parameter(alloc, tokens);
    }
    if let Some(next) = behind_word(tokens, 0, b"predicate") {
        return predicate(alloc, rest_at(tokens, next));
    }
    if let Some(next) = behind_word(tokens, 0, b"solve") {
        return solve(alloc, tokens, next);
    }
    let fault = instead(alloc, tokens, 0, "begins no item known here")?;
    Err(Trouble::Fault(fault))
}

// The statement that a list of tokens is, without its semicolon.
pub fn read_statement<'a>(alloc: Global, tokens: &[Token<'a>]) -> Result<Statement<'a>, Trouble>
    ensures exact { Gives statement_of result (statement_read (map seen tokens.now)) }
    // What is read is spelled so.
    ensures spelled { IfOk result (λ s. tokens_of (statement_of s) ≡ map seen tokens.now) }
{
    whole(alloc, tokens)
}
