// Which variables two or more constraints choose by, and the record of those that are encoded.
#![tactic(auto)]

ghost use Rattle.std.specs.Prelude.{◌≡◌, ◌<◌, ◌≤◌, length};
ghost use Rattle.words.specs.Limit as Limit;
ghost use Rattle.models.specs.Codes.{code_number};
ghost use Rattle.models.specs.Model.{constraints, var};
ghost use Rattle.modelreading.specs.Seen.{Heads};
ghost use Rattle.rules.specs.Shared.{encodes, shares, encoded_after};
ghost use Rattle.encodings.specs.Uses.{choice_of, choosing, counted, no_uses, uses_from, UsesFew, shared_by};

use arguments::var_at;
use models::code::Code;
use models::constraint::Constraint;
use words::list::{at_or, put};

pub mod context;

// Whether a code chooses by the value of its first argument.
#[tactic(auto, unfolding(crate::specs::Uses::choosing))]
fn chooses(code: Code) -> bool
    ensures { result ≡ choosing (code_number code) }
{
    matches!(
        code,
        Code::ArrayIntElement | Code::ArrayVarIntElement | Code::SetIn | Code::SetInReif
    )
}

// Counts the use of the variable that a constraint encodes.
#[tactic(auto, unfolding(crate::specs::Uses::counted), using(crate::proofs::Record::by_code))]
fn count_use(constraint: &Constraint, uses: &mut [usize])
    requires { UsesFew uses.old }
    ensures { uses.new ≡ counted uses.old (encodes (choice_of (code_number constraint.now.code) constraint.now.args.now)) }
{
    if chooses(constraint.code) {
        let x = var_at(constraint.args, 0);
        put(uses, x, at_or(uses, x, 0) + 1);
    }
}

// Counts into a list of 256 zeros how many constraints of a model, whose heads stand at these places, encode each variable.
// A `for` with its own body, as each walk over constraints is: one form by a closure would take the clauses of that body, and is no plainer.
#[tactic(auto, using(modelreading::proofs::Heads::heads_inside))]
pub fn count_uses(ws: &[u32], heads: &[usize], uses: &mut [usize])
    requires { (length ws.now ≤ Limit.model_words) × Heads ws.now heads.now (length heads.now) × (uses.old ≡ no_uses) }
    ensures { uses.new ≡ uses_from no_uses (constraints ws.now) }
{
    for &place in heads {
        if let Some(constraint) = Constraint::at(ws, place) {
            count_use(&constraint, uses);
        }
    }
}

// Whether the variable at place 0 is shared, for a constraint that chooses by it.
pub fn first_shared(args: &[u32], uses: &[usize]) -> bool
    ensures { result ≡ shared_by uses.now (var args.now 0) }
{
    1 < at_or(uses, var_at(args, 0), 0)
}

// Whether a constraint chooses by a variable that is shared.
#[tactic(auto, using(crate::proofs::Record::by_code))]
pub fn is_shared(constraint: &Constraint, uses: &[usize]) -> bool
    ensures { result ≡ shares (shared_by uses.now) (choice_of (code_number constraint.now.code) constraint.now.args.now) }
{
    chooses(constraint.code) && first_shared(constraint.args, uses)
}

// The record after the block of a constraint, whose auxiliaries are numbered from `first` on: the first bit of a variable that had none.
// 0 stays "none" in the record, here and wherever it is read: its definition (`Encoded`) is a list of numbers and reads 0 so; an array of Options would need a map to it in each clause, and be no plainer.
// The record and the uses are no `Context` here: that lends the record, and this writes to it.
#[tactic(auto, using(crate::proofs::Record::by_code))]
pub fn record_encoding(encoded: &mut [usize], constraint: &Constraint, uses: &[usize], first: usize)
    ensures { encoded.new ≡ encoded_after (shared_by uses.now) first encoded.old (encodes (choice_of (code_number constraint.now.code) constraint.now.args.now)) }
{
    let x = var_at(constraint.args, 0);
    if is_shared(constraint, uses) && at_or(encoded, x, 0) == 0 {
        put(encoded, x, first);
    }
}
