// Constraints given by the number of a code and the words after the head. A number that no builtin has is that of a builtin which is true of all values: its
// block is that of int_eq(0,0), it shares no variable, records nothing and picks nothing.
ghost use Rattle.std.specs.Prelude.{◌≡◌};
ghost use Rattle.integers.specs.Terms.{value};
ghost use Rattle.words.specs.Small.{Small};
ghost use Rattle.models.specs.Meaning.{meaning};
ghost use Rattle.builtins.specs.Coded.{builtin_of};
ghost use Rattle.rules.specs.Shared.{encodes, shares, encoded_after};
ghost use Rattle.encodings.specs.Uses.{choice_of, shared_by};
ghost use Rattle.laying.specs.Appends.{GrowsBy, nothing};
ghost use Rattle.laying.specs.Sizes.{block_size};
ghost use Rattle.blocks.specs.Coded.{Lays};
ghost use Rattle.picking.specs.Output.{Pickable, Puts};
ghost use Rattle.picking.specs.Picked.{picks_after};
ghost use Rattle.numbered.specs.Blocks.{block_of_number, LayableNumber};

use encodings::context::Context;
use integers::Bounds;
use laying::Laid;
use models::code::Code;
use models::constraint::Constraint;
use picking::Output;
use words::domain::Domain;

// Whether the builtin of a code is true of values near 0.
pub fn holds(code: usize, args: &[u32], values: &[i32]) -> bool
    requires { Small values.now }
    ensures { result ≡ meaning (value values.now) (builtin_of code args.now) }
{
    match Code::try_from(code) {
        Ok(known) => builtins::holds(&Constraint { code: known, args }, values),
        Err(_) => true,
    }
}

// Lays the block of a constraint to the front of the output; `sum` is L and U where its rule has these.
pub fn block(out: &mut [u32], code: usize, args: &[u32], sum: Bounds, context: &Context) -> Laid
    requires { LayableNumber context.now code args.now sum }
    ensures parts { Lays (block_of_number context.now code args.now) context.now.first nothing result out.old out.new }
    ensures size { GrowsBy block_size nothing result }
{
    match Code::try_from(code) {
        Ok(known) => blocks::block(out, &Constraint { code: known, args }, sum, context),
        Err(_) => {
            let none = Constraint {
                code: Code::IntEq,
                args: &[],
            };
            blocks::block(out, &none, sum, context)
        }
    }
}

// Whether a constraint chooses by a variable that is shared.
pub fn is_shared(code: usize, args: &[u32], uses: &[usize]) -> bool
    ensures { result ≡ shares (shared_by uses.now) (choice_of code args.now) }
{
    match Code::try_from(code) {
        Ok(known) => encodings::is_shared(&Constraint { code: known, args }, uses),
        Err(_) => false,
    }
}

// The record after the block of a constraint, whose auxiliaries are numbered from `first` on.
pub fn record_encoding(
    encoded: &mut [usize],
    code: usize,
    args: &[u32],
    uses: &[usize],
    first: usize,
)
    ensures { encoded.new ≡ encoded_after (shared_by uses.now) first encoded.old (encodes (choice_of code args.now)) }
{
    match Code::try_from(code) {
        Ok(known) => {
            encodings::record_encoding(encoded, &Constraint { code: known, args }, uses, first)
        }
        Err(_) => (),
    }
}

// What fill writes for the auxiliaries of a constraint, given the counted uses and the record of encoded variables.
pub fn pick_constraint(
    output: &mut Output,
    code: usize,
    args: &[u32],
    values: &[i32],
    domains: &[Domain],
    uses: &[usize],
    encoded: &[usize],
)
    requires small { Small values.now }
    requires picks { Pickable output.old (picks_after domains.now uses.now encoded.now values.now code args.now) }
    ensures { Puts output.old (picks_after domains.now uses.now encoded.now values.now code args.now) output.new }
{
    match Code::try_from(code) {
        Ok(known) => {
            let constraint = Constraint { code: known, args };
            picking::pick_constraint(output, &constraint, values, domains, uses, encoded)
        }
        Err(_) => (),
    }
}
