// The blocks of array_int_element, array_var_int_element, set_in and set_in_reif: over the shared bits of the variable at place 0, or by the code's own rule.
ghost use Rattle.std.specs.Prelude.{◌≡◌, true};
ghost use Rattle.integers.specs.Bounds.{bounds_in};
ghost use Rattle.models.specs.Codes.{code_number};
ghost use Rattle.builtins.specs.Coded.{builtin_of};
ghost use Rattle.rules.specs.Rule.{rule};
ghost use Rattle.encodings.specs.Uses.{choosing};
ghost use Rattle.laying.specs.Part.{block_parts};
ghost use Rattle.laying.specs.Writes.{WritesFitting};
ghost use Rattle.blocks.specs.Coded.{Narrow, ReifiedNarrow, block_by};

use choiceblocks::{array_int_element, array_var_int_element, set_in, set_in_reif};
use encodings::context::Context;
use encodings::first_shared;
use laying::Writer;
use models::code::Code;
use models::constraint::Constraint;
use sharedblocks::shared_block;

// By the code's own rule. Four codes choose, so the last arm is set_in_reif's: an arm for each other code would be no plainer.
fn own_choice(writer: &mut Writer, constraint: &Constraint, context: &Context)
    requires { ReifiedNarrow (bounds_in context.now.domains.now) (code_number constraint.now.code) constraint.now.args.now × (choosing (code_number constraint.now.code) ≡ true) }
    ensures { WritesFitting writer.old writer.new (block_parts context.now.first (rule (bounds_in context.now.domains.now) (builtin_of (code_number constraint.now.code) constraint.now.args.now))) }
{
    let args = constraint.args;
    let domains = context.domains;
    let first = context.first;
    match constraint.code {
        Code::ArrayIntElement => array_int_element(writer, args, domains, first),
        Code::ArrayVarIntElement => array_var_int_element(writer, args, domains, first),
        Code::SetIn => set_in(writer, args, domains, first),
        _ => set_in_reif(writer, args, domains, first),
    }
}

// The block of a code that chooses.
pub fn choice(writer: &mut Writer, constraint: &Constraint, context: &Context)
    requires { Narrow (bounds_in context.now.domains.now) context.now.uses.now (code_number constraint.now.code) constraint.now.args.now × (choosing (code_number constraint.now.code) ≡ true) }
    ensures { WritesFitting writer.old writer.new (block_parts context.now.first (block_by context.now constraint.now)) }
{
    if first_shared(constraint.args, context.uses) {
        shared_block(
            writer,
            constraint.code,
            constraint.args,
            context.domains,
            context.encoded,
            context.first,
        );
    } else {
        own_choice(writer, constraint, context);
    }
}
