// Clauses of atoms, without constants.
ghost use Rattle.std.specs.Prelude.{◌≡◌, IfOk, OnOk};
ghost use Rattle.integers.specs.Lists.{any};
ghost use Rattle.flatzinc.specs.Seen.{row};
ghost use Rattle.flatzinc.specs.Calls.{placed_all};
ghost use Rattle.flatrewriting.specs.Arguments.{given, placed_of};
ghost use Rattle.std.specs.Prelude.{[], ◌∷◌, ◌++◌};
ghost use Rattle.flatrewriting.specs.Made.{and_more, and_one};
ghost use Rattle.flatrewriting.specs.Rewritten.{is_constant, without, clauses, each_clause};

use flatzinc::{Argument, Atom, Call};
use models::code::Code;
use std::alloc::{AllocError, Global};

// Whether an atom is the Boolean constant of a value.
#[tactic(auto, unfolding(crate::specs::Rewritten::is_constant))]
fn is_constant(truth: bool, atom: Atom) -> bool
    ensures { result ≡ is_constant truth atom }
{
    match atom {
        Atom::Truth(value) => value == truth,
        Atom::Whole(_) | Atom::Variable(_) => false,
    }
}

// Whether an atom is the Boolean constant of a value.
fn has_constant(truth: bool, atoms: &[Atom]) -> bool
    ensures { result ≡ any (is_constant truth) atoms.now }
{
    for &atom in atoms {
        if is_constant(truth, atom) {
            return true;
        }
    }
    false
}

// The atoms that are not the Boolean constant of a value.
fn without(alloc: Global, truth: bool, atoms: &[Atom]) -> Result<Vec<Atom>, AllocError>
    ensures { IfOk result (λ v. v.items ≡ without truth atoms.now) }
{
    let mut others = Vec::new(alloc);
    for &atom in atoms {
        if !is_constant(truth, atom) {
            others.push(atom)?;
        }
    }
    Ok(others)
}

// Adds a call of two arguments.
pub(crate) fn put_call(
    alloc: Global,
    calls: &mut Vec<Call>,
    code: Code,
    first: Argument,
    second: Argument,
) -> Result<(), AllocError>
    ensures { OnOk result (placed_all calls.new.items ≡ and_one (placed_all calls.old.items) (placed_of (row code) (given first ∷ given second ∷ []))) }
{
    let arguments = vec![in alloc; first, second]?;
    calls.push(Call { code, arguments })?;
    Ok(())
}

// Adds the clause of atoms and of those that are negated, if no constant makes it true.
#[tactic(auto, unfolding(crate::specs::Rewritten::clauses))]
pub fn put_clause(
    alloc: Global,
    calls: &mut Vec<Call>,
    positive: &[Atom],
    negative: &[Atom],
) -> Result<(), AllocError>
    ensures { OnOk result (placed_all calls.new.items ≡ and_more (placed_all calls.old.items) (clauses positive.now negative.now)) }
{
    if has_constant(true, positive) || has_constant(false, negative) {
        return Ok(());
    }
    let positive = without(alloc, false, positive)?;
    let negative = without(alloc, true, negative)?;
    put_call(
        alloc,
        calls,
        Code::BoolClause,
        Argument::Many(positive),
        Argument::Many(negative),
    )
}

// Adds the clauses that two atoms are equal.
pub(crate) fn put_equal(
    alloc: Global,
    calls: &mut Vec<Call>,
    a: Atom,
    b: Atom,
) -> Result<(), AllocError>
    ensures { OnOk result (placed_all calls.new.items ≡ and_more (placed_all calls.old.items) (clauses (a ∷ []) (b ∷ []) ++ clauses (b ∷ []) (a ∷ []))) }
{
    put_clause(alloc, calls, &[a], &[b])?;
    put_clause(alloc, calls, &[b], &[a])
}

// Adds the clauses that an atom follows from each of a list.
pub(crate) fn put_each(
    alloc: Global,
    calls: &mut Vec<Call>,
    conclusion: Atom,
    atoms: &[Atom],
) -> Result<(), AllocError>
    ensures { OnOk result (placed_all calls.new.items ≡ and_more (placed_all calls.old.items) (each_clause conclusion atoms.now)) }
{
    for &atom in atoms {
        put_clause(alloc, calls, &[conclusion], &[atom])?;
    }
    Ok(())
}
