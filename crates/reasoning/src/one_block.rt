// One block, laid into a lent list and judged there by itself.
ghost use Rattle.std.specs.Prelude.{◌≡◌, ◌+◌, ◌≤◌, length};
ghost use Rattle.words.specs.Faults.{said_of};
ghost use Rattle.words.specs.Limit as Limit;
ghost use Rattle.laying.specs.Sizes.{block_size};
ghost use Rattle.blocks.specs.Coded.{block_by};
ghost use Rattle.reasoning.specs.Walks.{block_words_most, Readable, Front, Judgeable, BlockJudged, shift, AtMost};

use crate::Said;
use crate::rows::first_false_row;
use blocks::block;
use encodings::context::Context;
use integers::Bounds;
use laying::Laid;
use models::constraint::Constraint;
use variables::first_out_of_bounds;
use words::answer::Verdict;
use words::kind::Kind;
use words::list::lay;
use words::word::Word;

// Lays the block of a constraint and an end word to the front of the list.
fn lay_block(words: &mut [u32], constraint: &Constraint, sum: Bounds, context: &Context) -> Laid
    requires { Readable context.now constraint.now sum × (block_words_most + 1 ≤ length words.old) }
    ensures { Front context.now.first (block_by context.now constraint.now) result words.new }
{
    let laid = block(words, constraint, sum, context);
    lay(words, laid.words, &[Word::new(Kind::RowsEnd, 0).bits()]);
    laid
}

// The number of a variable counted on from k.
fn counted_on(answer: Verdict, k: usize) -> Verdict
    requires { AtMost block_size (said_of answer) × (k ≤ Limit.in_all) }
    ensures { said_of result ≡ shift k (said_of answer) }
{
    match answer {
        Verdict::Holds => Verdict::Holds,
        Verdict::OutOfBounds(i) => Verdict::OutOfBounds(k + i),
        Verdict::False(i) => Verdict::False(i),
    }
}

// What the block of a constraint says of the values: where the bounds are asked, the first auxiliary out of its bounds; else the first row that fails, counted from k.
// `bounds` is a flag and no closure: a closure's contract would have to say of the words of every block what this one choice says.
pub fn judge_block(
    words: &mut [u32],
    constraint: &Constraint,
    sum: Bounds,
    context: &Context,
    values: &[i32],
    k: usize,
    bounds: bool,
) -> Said
    requires { Judgeable bounds context.now constraint.now sum words.old values.now × (k ≤ 1000000000) }
    ensures { BlockJudged bounds values.now context.now.first k (block_by context.now constraint.now) result }
{
    let laid = lay_block(words, constraint, sum, context);
    let first = context.first;
    let said = if bounds {
        let found = first_out_of_bounds(
            &words[..laid.words + 1],
            &values[first..first + laid.auxiliaries],
        );
        counted_on(found, first)
    } else {
        first_false_row(
            &words[..laid.words + 1],
            values,
            first + laid.auxiliaries,
            2 * laid.auxiliaries,
            k,
        )
    };
    Said {
        said,
        auxiliaries: laid.auxiliaries,
        rows: laid.rows,
    }
}
