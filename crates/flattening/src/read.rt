// The items of a FlatZinc text.
ghost use Rattle.std.specs.Prelude.{◌≡◌, List, Some, IfOk, option_map};
ghost use Rattle.flatstatements.specs.Statement.{Statement};
ghost use Rattle.flatnames.specs.Step.{start, steps};
ghost use Rattle.flatnames.specs.Seen.{state_of};
ghost use Rattle.flattening.specs.Reads.{Reads};
ghost use Rattle.flattening.specs.Stepped.{Stepped};

use flatnames::state::State;
use flatnames::{start, step};
use flatstatements::read_statement;
use flattokens::next_statement;
use flatzinc::trouble::Trouble;
use std::alloc::Global;

// Takes the statement at the front into the state; the bytes behind it, or none where nothing but gaps is left.
fn take_statement<'a>(
    alloc: Global,
    state: &mut State<'a>,
    bytes: &'a [u8],
) -> Result<Option<&'a [u8]>, Trouble>
    ensures { IfOk result (λ o. Stepped bytes.now (state_of state.old) (state_of state.new) (option_map (λ rest. rest.now) o)) }
{
    let Some((tokens, rest)) = next_statement(alloc, bytes)? else {
        return Ok(None);
    };
    let read = read_statement(alloc, &tokens)?;
    step(alloc, state, &read)?;
    Ok(Some(rest))
}

// The state after all statements.
pub fn read<'a>(alloc: Global, bytes: &'a [u8]) -> Result<State<'a>, Trouble>
    ensures { IfOk result (λ s. (ss : List Statement) × Reads bytes.now ss × (steps start ss ≡ Some (state_of s))) }
{
    let mut state = start(alloc);
    let mut rest = bytes;
    while let Some(behind) = take_statement(alloc, &mut state, rest)? {
        rest = behind;
    }
    Ok(state)
}
