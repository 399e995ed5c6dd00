// From the statements of a FlatZinc text to its items, with parameters and arrays put in.
#![tactic(auto)]

ghost use Rattle.std.specs.Prelude.{◌≡◌, map, option_map, pos, IfOk};
ghost use Rattle.integers.specs.Number.{◌≟◌};
ghost use Rattle.flattokens.specs.Token.{token};
ghost use Rattle.flatstatements.specs.Statement.{literal, literal_of, expression_of, range_of, goal_of, statement_of};
ghost use Rattle.flatzinc.specs.Seen.{domain, value, flatzinc};
ghost use Rattle.flatzinc.specs.Answer.{Gives};
ghost use Rattle.flatnames.specs.Step.{has_length, is_array, kind_fits, domain_of, given_of, objective, start, after_parameter, after_variable, after_constraint, after_solve, step, finished};
ghost use Rattle.flatnames.specs.Scope.{atom_of, arguments};
ghost use Rattle.flatnames.specs.Seen.{scope_of, aim_of, state_of};

pub mod due;
pub mod expressions;
mod faults;
pub mod fits;
pub mod items;
pub mod laws;
pub mod state;

use crate::expressions::{argument, atom_of, declare, known, stands_for};
use crate::faults::Place;
use crate::fits::{domain_fits, given_fits, is_integer, item_fits};
use crate::items::{item_of, unprefixed};
use crate::state::{Aim, Known, Scope, State};
use flatstatements::{Element, Expression, Goal, Literal, Range, Statement};
use flattokens::Token;
use flatzinc::trouble::Trouble;
use flatzinc::{Atom, Declared, Domain, FlatZinc, Value};
use std::alloc::{AllocError, Global};
use std::collections::BTreeMap;

const ARRAY: &[u8] = b"array";

// Whether a number is this count.
#[tactic(auto)]
fn is_count(n: i64, count: usize) -> bool
    ensures { result ≡ (n ≟ pos count) }
{
    0 <= n && n as usize == count
}

// Whether the tokens before a parameter's name are those of an array of so many elements, array [1..n] of ..
#[tactic(auto, unfolding(crate::specs::Step::has_length))]
fn has_length(kind: &[Token], length: usize) -> bool
    ensures { result ≡ has_length length (map token kind.now) }
{
    match kind {
        [
            Token::Name(_),
            Token::Sign(b),
            Token::Number(l),
            Token::Dots,
            Token::Number(u),
            ..
        ] => { *b == b'[' && is_count(*l, 1) && is_count(*u, length) }
        _ => false,
    }
}

// Whether the tokens before a parameter's name are those of an array.
#[tactic(auto, unfolding(crate::specs::Step::is_array, words::specs::Bytes::bytes, integers::specs::Lists::list_of))]
fn is_array(kind: &[Token]) -> bool
    ensures { result ≡ is_array (map token kind.now) }
{
    match kind {
        [Token::Name(word), ..] => *word == ARRAY,
        _ => false,
    }
}

// Whether a parameter's value is as the tokens before its name say, and no name.
#[tactic(auto, unfolding(crate::specs::Step::kind_fits))]
fn kind_fits(kind: &[Token], of: &Expression) -> bool
    ensures { result ≡ kind_fits (map token kind.now) (expression_of of.now) }
{
    match of {
        Expression::One(Element::Literal(Literal::Name(_))) => false,
        Expression::One(_) => !is_array(kind),
        Expression::Many(elements) => is_array(kind) && has_length(kind, elements.len()),
    }
}

// A parameter or an array.
#[tactic(auto, unfolding(crate::specs::Step::after_parameter))]
fn after_parameter<'a>(
    alloc: Global,
    state: &mut State<'a>,
    kind: &[Token<'a>],
    name: &'a [u8],
    of: &Expression<'a>,
) -> Result<(), Trouble>
    ensures { Gives (λ x. state_of state.new) result (after_parameter (state_of state.old) (map token kind.now) name.now (expression_of of.now)) }
{
    let is_taken = known(&state.scope, name).is_some();
    if is_taken {
        return Err(faults::of_name(alloc, name, "is declared twice"));
    }
    if !kind_fits(kind, of) {
        return Err(faults::of_name(alloc, name, "has no value of its type"));
    }
    let Some(stands) = stands_for(alloc, &state.scope, of)? else {
        return Err(faults::of_parameter(alloc, &state.scope, of));
    };
    declare(&mut state.scope, name, stands)?;
    Ok(())
}

// The atom that a literal stands for.
fn literal_atom<'a>(state: &State<'a>, of: Literal<'a>) -> Option<Atom>
    ensures { result ≡ atom_of (state_of state.now).scope (literal (literal_of of.entry)) }
{
    atom_of(&state.scope, &Element::Literal(of))
}

// What a variable of a domain is declared equal to.
#[tactic(auto, unfolding(crate::specs::Step::given_of))]
fn given_of<'a>(
    alloc: Global,
    state: &State<'a>,
    of: &Domain,
    given: &Option<Literal<'a>>,
) -> Result<Option<Atom>, Trouble>
    ensures { Gives (λ x. x) result (given_of (state_of state.now) (domain of.now) (option_map literal_of given.now)) }
{
    let Some(literal) = given else {
        return Ok(None);
    };
    let Some(atom) = literal_atom(state, *literal) else {
        return Err(faults::of_literal(alloc, b"int_eq", *literal));
    };
    if !given_fits(&state.variables, of, atom) {
        return Err(faults::of_given(alloc, place(state, b"int_eq"), of, atom));
    }
    Ok(Some(atom))
}

// What a fault of a builtin speaks of.
fn place<'s, 'a>(state: &'s State<'a>, builtin: &'s [u8]) -> Place<'s, 'a> {
    Place {
        names: &state.names,
        variables: &state.variables,
        builtin,
    }
}

// The domain of a range.
fn domain_of(alloc: Global, of: &Range) -> Result<Domain, AllocError>
    ensures { IfOk result (λ d. domain d ≡ domain_of (range_of of.now)) }
{
    match of {
        Range::Bool => Ok(Domain::Bools),
        Range::Between(lo, hi) => Ok(Domain::Between(*lo, *hi)),
        Range::Members(numbers) => Ok(Domain::Among(numbers.clone()?)),
    }
}

// A variable.
#[tactic(auto, unfolding(crate::specs::Step::after_variable))]
fn after_variable<'a>(
    alloc: Global,
    state: &mut State<'a>,
    range: &Range,
    name: &'a [u8],
    given: &Option<Literal<'a>>,
) -> Result<(), Trouble>
    ensures { Gives (λ x. state_of state.new) result (after_variable (state_of state.old) (range_of range.now) name.now (option_map literal_of given.now)) }
{
    if known(&state.scope, name).is_some() {
        return Err(faults::of_name(alloc, name, "is declared twice"));
    }
    let domain = domain_of(alloc, range)?;
    if !domain_fits(&domain) {
        return Err(faults::of_domain(alloc, name, &domain));
    }
    let given = given_of(alloc, state, &domain, given)?;
    declare(
        &mut state.scope,
        name,
        Known::Variable(state.variables.len()),
    )?;
    state.names.push(name)?;
    state.variables.push(Declared { domain, given })?;
    Ok(())
}

// The values that arguments stand for.
#[tactic(auto, unfolding(crate::specs::Scope::each))]
fn arguments_of<'a>(
    alloc: Global,
    scope: &Scope<'a>,
    builtin: &[u8],
    expressions: &[Expression<'a>],
) -> Result<Vec<Value>, Trouble>
    ensures { Gives (λ v. map value v.items) result (arguments (scope_of scope.now) (map expression_of expressions.now)) }
{
    let mut out = Vec::new(alloc);
    for expression in expressions {
        match argument(alloc, scope, expression)? {
            Some(one) => out.push(one)?,
            None => return Err(faults::of_argument(alloc, scope, builtin, expression)),
        }
    }
    Ok(out)
}

// A constraint.
#[tactic(auto, unfolding(crate::specs::Step::after_constraint))]
fn after_constraint<'a>(
    alloc: Global,
    state: &mut State<'a>,
    builtin: &'a [u8],
    expressions: &[Expression<'a>],
) -> Result<(), Trouble>
    ensures { Gives (λ x. state_of state.new) result (after_constraint (state_of state.old) builtin.now (map expression_of expressions.now)) }
{
    let values = arguments_of(alloc, &state.scope, builtin, expressions)?;
    let Some(item) = item_of(builtin, values) else {
        return Err(faults::no_rows(alloc, unprefixed(builtin)));
    };
    if !item_fits(&state.variables, &item) {
        return Err(faults::of_item(alloc, place(state, unprefixed(builtin)), &item));
    }
    state.constraints.push(item)?;
    Ok(())
}

// The variable or number of an objective.
#[tactic(auto, unfolding(crate::specs::Step::objective))]
fn objective<'a>(alloc: Global, state: &State<'a>, of: Literal<'a>) -> Result<Atom, Trouble>
    ensures { Gives (λ x. x) result (objective (state_of state.now) (literal_of of.entry)) }
{
    let Some(atom) = literal_atom(state, of) else {
        return Err(faults::of_literal(alloc, b"int", of));
    };
    if !is_integer(&state.variables, atom) {
        return Err(faults::of_objective(alloc, place(state, b"solve"), atom));
    }
    Ok(atom)
}

// A solve item.
#[tactic(auto, unfolding(crate::specs::Step::after_solve, crate::specs::Step::aim_of))]
fn after_solve<'a>(alloc: Global, state: &mut State<'a>, goal: Goal<'a>) -> Result<(), Trouble>
    ensures { Gives (λ x. state_of state.new) result (after_solve (state_of state.old) (goal_of goal.entry)) }
{
    if state.aim.is_some() {
        return Err(faults::of_name(alloc, b"solve", "stands a second time"));
    }
    let aim = match goal {
        Goal::Satisfy => Aim::Satisfy,
        Goal::Minimize(of) => Aim::Minimize(objective(alloc, state, of)?),
        Goal::Maximize(of) => Aim::Maximize(objective(alloc, state, of)?),
    };
    state.aim = Some(aim);
    Ok(())
}

// The state after one more statement, or what is wrong with it.
#[tactic(auto, unfolding(crate::specs::Step::step))]
pub fn step<'a>(
    alloc: Global,
    state: &mut State<'a>,
    statement: &Statement<'a>,
) -> Result<(), Trouble>
    ensures { Gives (λ x. state_of state.new) result (step (state_of state.old) (statement_of statement.now)) }
{
    match statement {
        Statement::Predicate(_) => Ok(()),
        Statement::Parameter {
            kind,
            name,
            value,
            ..
        } => { after_parameter(alloc, state, kind, name, value) }
        Statement::Variable {
            range,
            name,
            given,
            ..
        } => { after_variable(alloc, state, range, name, given) }
        Statement::Constraint {
            builtin,
            arguments,
            ..
        } => { after_constraint(alloc, state, builtin, arguments) }
        Statement::Solve { goal, .. } => after_solve(alloc, state, *goal),
    }
}

// The state before any statement.
pub fn start<'a>(alloc: Global) -> State<'a>
    ensures { state_of result ≡ start }
{
    State {
        scope: BTreeMap::new(alloc),
        names: Vec::new(alloc),
        variables: Vec::new(alloc),
        constraints: Vec::new(alloc),
        aim: None,
    }
}

// What all the statements stand for, once they are read: the items and what the solve item asks for.
pub fn finished(alloc: Global, state: State) -> Result<(FlatZinc, Aim), Trouble>
    ensures { Gives (λ r. record { flatzinc = flatzinc r.0; aim = aim_of r.1 }) result (finished (state_of state.entry)) }
{
    let State {
        variables,
        constraints,
        aim,
        ..
    } = state;
    match aim {
        Some(aim) => Ok((
            FlatZinc {
                variables,
                constraints,
            },
            aim,
        )),
        None => Err(faults::no_solve_item(alloc)),
    }
}
