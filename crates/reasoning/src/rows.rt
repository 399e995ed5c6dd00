// The rows of words from a place on.
ghost use Rattle.std.specs.Prelude.{◌≡◌, [], ◌≤◌, drop};
ghost use Rattle.integers.specs.Terms.{value};
ghost use Rattle.words.specs.Refusal.{accepted};
ghost use Rattle.words.specs.Judge.{first_false};
ghost use Rattle.words.specs.Variables.{variables};
ghost use Rattle.words.specs.Faults.{said_of};
ghost use Rattle.rowsystems.specs.Row.{satisfied};
ghost use Rattle.rowsystems.specs.RowSystem.{rows};
ghost use Rattle.rowreading.specs.Onward.{onward, Placed};
ghost use Rattle.rowterms.specs.Values.{ValuesKnown};

use rowjudge::judge_on;
use rowsystems::Due;
use words::answer::Verdict;

// The first row or product from a place on that is false, counted from k; the words from there on are rows, products and the end, over n variables.
#[tactic(auto, unfolding(rowreading::specs::Item::start_due, rowjudge::specs::Judging::judged_on, words::specs::Judge::first_out_of_bounds))]
pub fn first_false_row(ws: &[u32], values: &[i32], n: usize, start: usize, k: usize) -> Verdict
    requires { Placed ws.now start × ValuesKnown values.now n × (onward Due.Item n start ws.now ≡ accepted) × (variables (drop start ws.now) ≡ []) × (n ≤ 1000000000) × (k ≤ 1000000000) }
    ensures { said_of result ≡ first_false (satisfied (value values.now)) k (rows (drop start ws.now)) }
{
    match judge_on(ws, values, false, n, start, k) {
        Ok(judged) => judged.said,
        // no refusal: these words are accepted
        Err(_) => unreachable!(),
    }
}
