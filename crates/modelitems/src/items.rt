// The items of a model: variables, and constraints with their arguments. Each function reads some words of an item.
// ws, at and types go to each function: at moves on with each word, so that a struct of them, as grammar's Reading, would be made anew each time and be no plainer.
ghost use Rattle.std.specs.Prelude.{◌≡◌, ◌+◌, ◌≤◌, get_or, map, IfOk};
ghost use Rattle.words.specs.Limit as Limit;
ghost use Rattle.words.specs.Word.{payload, word_at};
ghost use Rattle.words.specs.Check.{step_of};
ghost use Rattle.models.specs.Shapes.{shape_number, argument_number};
ghost use Rattle.models.specs.Reading.{declared};
ghost use Rattle.modelitems.specs.Argument.{table};
ghost use Rattle.modelitems.specs.Onward.{Placed, NumbersRead, VariablesRead, LengthRead, ArgumentRead, ArgumentsRead};
ghost use Rattle.modelitems.specs.Variable.{VariableRead};

use crate::faults::{are_numbers, check_count, check_start, check_variable};
use crate::shapes::{LAST_CODE, MOST_ARGUMENTS, argument_of};
use models::shape::Shape;
use words::check::{check_number, check_upper, over};
use words::fault::{Fault, Refusal};
use words::kind::Kind;
use words::limit;
use words::word::Word;

// n numbers from a place on; where all of them are numbers they are looked at together.
// One function with `variables_at` is no plainer: what is due next differs in their clauses, and the loops have a line each.
fn numbers_at(ws: &[u32], at: usize, n: usize) -> Result<usize, Refusal>
    requires { Placed ws.now at × (n ≤ Limit.list_length) }
    ensures { NumbersRead ws.now n at 0 (step_of result) }
{
    let end = at + n;
    if end <= ws.len() && are_numbers(&ws[at..end]) {
        return Ok(end);
    }
    for place in at..end {
        over(place, check_number(Word::at(ws, place)))?;
    }
    Ok(end)
}

// n variables of a type from a place on. The words may end before the last one: the loop goes over those that are there.
fn variables_at(
    ws: &[u32],
    at: usize,
    n: usize,
    wanted: Shape,
    types: &[Shape],
) -> Result<usize, Refusal>
    requires { Placed ws.now at × (n ≤ Limit.list_length) }
    ensures { VariablesRead ws.now (map shape_number types.now) (shape_number wanted) n at 0 (step_of result) }
{
    let end = (at + n).min(ws.len());
    for place in at..end {
        over(place, check_variable(types, wanted, Word::from(ws[place])))?;
    }
    if end < at + n {
        return Err(Refusal {
            fault: Fault::WrongKind,
            place: end,
        });
    }
    Ok(end)
}

// The length word of a list: the place of its first element.
fn past_length(ws: &[u32], at: usize) -> Result<usize, Refusal>
    requires { Placed ws.now at }
    ensures read { LengthRead ws.now at (step_of result) }
    ensures short { IfOk result (λ place. Placed ws.now place × (payload (word_at ws.now at) ≤ Limit.list_length)) }
{
    over(at, check_count(limit::LIST_LENGTH, Word::at(ws, at)))
}

// One argument.
fn argument_at(ws: &[u32], at: usize, argument: Shape, types: &[Shape]) -> Result<usize, Refusal>
    requires { Placed ws.now at }
    ensures { ArgumentRead ws.now (map shape_number types.now) (shape_number argument) at (step_of result) }
{
    let w = Word::at(ws, at);
    match argument {
        Shape::Integer | Shape::Boolean => over(at, check_variable(types, argument, w)),
        Shape::Number => over(at, check_number(w)),
        Shape::Exponent => over(at, check_count(limit::EXPONENT, w)),
        Shape::Numbers => numbers_at(ws, past_length(ws, at)?, w.payload()),
        Shape::Integers => {
            variables_at(ws, past_length(ws, at)?, w.payload(), Shape::Integer, types)
        }
        Shape::Booleans => {
            variables_at(ws, past_length(ws, at)?, w.payload(), Shape::Boolean, types)
        }
        Shape::Parallel => {
            let n = w.payload();
            let variables = numbers_at(ws, past_length(ws, at)?, n)?;
            variables_at(ws, variables, n, Shape::Integer, types)
        }
    }
}

// The arguments of a code, by the table.
pub fn arguments_at(
    ws: &[u32],
    at: usize,
    code: usize,
    shapes: &[[Option<Shape>; MOST_ARGUMENTS]; LAST_CODE + 1],
    types: &[Shape],
) -> Result<usize, Refusal>
    requires { Placed ws.now at × (map (map argument_number) shapes.now ≡ table) }
    ensures { ArgumentsRead ws.now (map shape_number types.now) code at (step_of result) }
{
    let mut place = at;
    for k in 0..MOST_ARGUMENTS {
        let Some(argument) = argument_of(shapes, code, k) else {
            break;
        };
        place = argument_at(ws, place, argument, types)?;
    }
    Ok(place)
}

// The type of the variable that a word starts.
#[tactic(auto, unfolding(models::specs::Reading::declared))]
pub fn declared_by(w: Word) -> Option<Shape>
    ensures { argument_number result ≡ get_or (declared w) 0 0 }
{
    if w.is(Kind::Lower) {
        return Some(Shape::Integer);
    }
    if w.is(Kind::Boolean) {
        return Some(Shape::Boolean);
    }
    None
}

// A variable, whose first word w stands at a place, after v variables.
pub fn variable_at(ws: &[u32], at: usize, w: Word, v: usize) -> Result<usize, Refusal>
    requires { Placed ws.now at × (w ≡ word_at ws.now at) }
    ensures { VariableRead ws.now v at w (step_of result) }
{
    let next = over(at, check_start(v, 0, w))?;
    if w.is(Kind::Lower) {
        return over(next, check_upper(Kind::Upper, w, Word::at(ws, next)));
    }
    Ok(next)
}
