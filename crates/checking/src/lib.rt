// Check: what a model's row system needs, or its first fault.
#![tactic(auto)]

ghost use Rattle.std.specs.Prelude.{◌≡◌, ◌+◌, ◌<◌, ◌≤◌, ltb, IfOk};
ghost use Rattle.integers.specs.Choice.{◌if◌else◌};
ghost use Rattle.words.specs.Fault as Numbered;
ghost use Rattle.words.specs.Limit as Limit;
ghost use Rattle.words.specs.Faults.{number_of};
ghost use Rattle.integers.specs.Bounds.{bounds_in};
ghost use Rattle.rules.specs.Check.{too_wide, check as check_answer};
ghost use Rattle.laying.specs.Appends.{some_outside};
ghost use Rattle.laying.specs.Sizes.{first_numbers, block_size};
ghost use Rattle.linearsums.specs.Sum.{Summed};
ghost use Rattle.models.specs.Codes.{code_number};
ghost use Rattle.encodings.specs.Uses.{shared_by};
ghost use Rattle.checking.specs.Checked.{checked};
ghost use Rattle.blocks.specs.Coded.{constraint_of, has_all};
ghost use Rattle.checking.specs.Walk.{Costs};
ghost use Rattle.checking.specs.ReadModel.{Unread, Listed};

use arguments::var_at;
use blocks::block;
use encodings::context::Context;
use encodings::{count_uses, is_shared, record_encoding};
use extremes::{keep_bounds, width_of};
use integers::Bounds;
use laying::Laid;
use linearsums::model_sums;
use modelreading::read_model;
use models::code::Code;
use models::constraint::Constraint;
use read::ReadModel;
use words::domain::domain_of;
use words::fault::{Fault, Refusal};
use words::limit;

pub mod read;

// What a model and its row system have; products count as rows, and the words are those that translate writes.
#[derive(Clone, Copy, Debug, PartialEq, Eq)]
pub struct Counts {
    pub variables: usize,
    pub constraints: usize,
    pub auxiliaries: usize,
    pub rows: usize,
    pub words: usize,
}

// Whether a constraint has an auxiliary for each value of its first argument.
fn has_all(constraint: &Constraint, uses: &[usize]) -> bool
    ensures { result ≡ has_all (shared_by uses.now) (code_number constraint.now.code) constraint.now.args.now }
{
    match constraint.code {
        Code::SetInReif => true,
        _ => is_shared(constraint, uses),
    }
}

// Whether it needs more than 64 of them.
fn too_wide(constraint: &Constraint, context: &Context) -> bool
    ensures { result ≡ too_wide (bounds_in context.now.domains.now) (shared_by context.now.uses.now) (constraint_of (code_number constraint.now.code) constraint.now.args.now) }
{
    has_all(constraint, context.uses)
        && limit::SET_BITS < width_of(domain_of(context.domains, var_at(constraint.args, 0)))
}

// Whether the numbers of a block, whose auxiliaries are numbered from `first` on, are in their range, and the auxiliaries few enough.
fn check_block(block: Laid, first: usize) -> Result<(), Fault>
    requires { (first < first_numbers) × (block.auxiliaries ≤ block_size) }
    ensures { number_of result ≡ (Numbered.number_outside if some_outside block else Numbered.too_many_in_all if ltb Limit.in_all (first + block.auxiliaries) else Numbered.none) }
{
    if 0 < block.outside {
        return Err(Fault::NumberOutside);
    }
    if limit::IN_ALL < first + block.auxiliaries {
        return Err(Fault::TooManyInAll);
    }
    Ok(())
}

// What the block of one constraint counts, which is laid into nothing, or its fault.
fn cost_of(constraint: &Constraint, sum: Bounds, context: &Context) -> Result<Laid, Fault>
    requires { Summed (bounds_in context.now.domains.now) (code_number constraint.now.code) constraint.now.args.now sum }
    ensures { Costs (bounds_in context.now.domains.now) (shared_by context.now.uses.now) context.now.first context.now.encoded.now (constraint_of (code_number constraint.now.code) constraint.now.args.now) result }
{
    if too_wide(constraint, context) {
        return Err(Fault::SetTooWide);
    }
    let laid = block(&mut [], constraint, sum, context);
    check_block(laid, context.first)?;
    Ok(laid)
}

// The first fault of a model that was read without one, by its place; or what the model needs.
// A `for` with its own body, and no closure for all walks: see `encodings::count_uses`.
fn check_read(read: &ReadModel) -> Result<Counts, Refusal>
    requires { Listed read.now }
    ensures { checked result ≡ check_answer read.now.ws.now }
{
    let mut auxiliaries = 0;
    let mut rows = 0;
    let mut words = read.model.sources + 1;
    // fixed memory: a number for each variable that a model may have
    let mut encoded = [0usize; 256];
    for k in 0..read.model.constraints {
        let constraint = read.constraint(k);
        let first = read.model.variables + auxiliaries;
        let context = Context {
            domains: &read.domains,
            uses: &read.uses,
            encoded: &encoded,
            first,
        };
        let place = read.heads[k];
        let cost = cost_of(&constraint, read.sum(k), &context).map_err(|fault| Refusal {
            fault,
            place,
        })?;
        record_encoding(&mut encoded, &constraint, &read.uses, first);
        auxiliaries += cost.auxiliaries;
        rows += cost.rows;
        words += cost.words;
    }
    Ok(Counts {
        variables: read.model.variables,
        constraints: read.model.constraints,
        auxiliaries,
        rows,
        words,
    })
}

// Reads the words of a model and keeps what the calls after check go by; what the model needs, or its first fault.
pub fn check_model(read: &mut ReadModel) -> Result<Counts, Refusal>
    requires { Unread read.old }
    ensures answer { checked result ≡ check_answer read.old.ws.now }
    ensures words { read.new.ws.now ≡ read.old.ws.now }
    ensures lists { IfOk result (λ n. Listed read.new) }
{
    let model = read_model(read.ws, &mut read.heads)?;
    keep_bounds(&read.ws[..model.sources], &mut read.domains);
    count_uses(read.ws, &read.heads[..model.constraints], &mut read.uses);
    model_sums(
        read.ws,
        &read.heads,
        model.constraints,
        &read.domains,
        &mut read.sums,
    );
    read.model = model;
    check_read(read)
}

// What the model needs, or its first fault.
pub fn check(ws: &[u32]) -> Result<Counts, Refusal>
    ensures { checked result ≡ check_answer ws.now }
{
    check_model(&mut ReadModel::of(ws))
}
