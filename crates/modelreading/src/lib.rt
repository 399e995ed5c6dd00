// The reader of a model: the first faulty word, by faults 1 to 11 and 18; and of an accepted model what it saw.
#![tactic(auto)]

ghost use Rattle.std.specs.Prelude.{◌≡◌, ◌≤◌, length, map, MatchResult};
ghost use Rattle.words.specs.Limit as Limit;
ghost use Rattle.words.specs.Faults.{fault_number};
ghost use Rattle.words.specs.Refusal.{◌at_place◌};
ghost use Rattle.models.specs.Shapes.{shape_number};
ghost use Rattle.modelitems.specs.Onward.{head_due, stopped};
ghost use Rattle.modelreading.specs.Seen.{Stops, VariablesSeen, Seen, Kept, model_read, read_of};

use modelitems::faults::check_head;
use modelitems::items::{arguments_at, declared_by, variable_at};
use modelitems::shapes;
use models::shape::Shape;
use words::check::over;
use words::fault::{Fault, Refusal};
use words::kind::Kind;
use words::limit;
use words::word::Word;

// What an accepted model has: how many variables, how many words they take, and how many constraints.
#[derive(Clone, Copy, Debug, PartialEq, Eq)]
pub struct Model {
    pub variables: usize,
    pub sources: usize,
    pub constraints: usize,
}

// The refusal where a reading stops, where a word is due: fault 2 where the words have ended before it.
// One function with `rowreading::refusal_at` is no plainer: that one accepts words that end after the end word.
#[tactic(auto, unfolding(modelitems::specs::Onward::stopped))]
fn refused(ws: &[u32], refusal: Refusal) -> Refusal
    ensures { fault_number result.fault at_place result.place ≡ stopped ws.now (fault_number refusal.fault) refusal.place }
{
    if refusal.place < ws.len() {
        return refusal;
    }
    Refusal {
        fault: Fault::WordsEnd,
        place: refusal.place,
    }
}

// The variables of a model: how many there are and how many words they take; in types their types.
// Fixed memory: the types stand in an array of the most variables, and the heads of constraints in another.
fn read_variables(ws: &[u32], types: &mut [Shape; 256]) -> Result<(usize, usize), Refusal>
    requires { length ws.now ≤ Limit.model_words }
    ensures { MatchResult result (λ r. VariablesSeen head_due ws.now (map shape_number types.new) r.0 r.1) (Stops ws.now) }
{
    let mut v = 0;
    let mut at = 0;
    // no list or count to go over: the pass ends by what it reads
    loop {
        let w = Word::at(ws, at);
        let Some(declared) = declared_by(w) else {
            break;
        };
        let next = variable_at(ws, at, w, v)?;
        types[v] = declared;
        v += 1;
        at = next;
    }
    Ok((v, at))
}

// The constraints of a model after its variables, which take so many words and are of these types: how many there are; in heads their places.
fn read_constraints(
    ws: &[u32],
    sources: usize,
    types: &[Shape],
    heads: &mut [usize; 256],
) -> Result<usize, Refusal>
    requires { VariablesSeen head_due ws.now (map shape_number types.now) (length types.now) sources }
    ensures { MatchResult result (λ c. Seen ws.now heads.new (model_read (record { variables = length types.now; sources = sources; constraints = c }))) (Stops ws.now) }
{
    let table = shapes::table();
    let mut at = sources;
    let mut c = 0;
    // no list or count to go over: the pass ends by what it reads
    loop {
        let head = Word::at(ws, at);
        let first = over(at, check_head(c, head))?;
        if head.is(Kind::ModelEnd) {
            break;
        }
        heads[c] = at;
        c += 1;
        at = arguments_at(ws, first, head.payload(), &table, types)?;
    }
    if at + 1 < ws.len() {
        return Err(Refusal {
            fault: Fault::WordAfterEnd,
            place: at + 1,
        });
    }
    Ok(c)
}

// The variables and the constraints of a model.
fn read_items(ws: &[u32], heads: &mut [usize; 256]) -> Result<Model, Refusal>
    requires { length ws.now ≤ Limit.model_words }
    ensures { MatchResult result (λ m. Seen ws.now heads.new (model_read m)) (Stops ws.now) }
{
    let mut types = [Shape::Integer; 256];
    let (variables, sources) = read_variables(ws, &mut types)?;
    let constraints = read_constraints(ws, sources, &types[..variables], heads)?;
    Ok(Model {
        variables,
        sources,
        constraints,
    })
}

// The first fault of a model and its place; of an accepted model what it has, and in heads the places of its constraints.
pub fn read_model(ws: &[u32], heads: &mut [usize; 256]) -> Result<Model, Refusal>
    ensures { Kept ws.now heads.new (read_of result) }
{
    if limit::MODEL_WORDS < ws.len() {
        return Err(Refusal {
            fault: Fault::TooManyWords,
            place: 0,
        });
    }
    read_items(ws, heads).map_err(|refusal| refused(ws, refusal))
}
