// A form taken some times, and what is added to it: of its constant, and of the line of a bit.
// k, e and a stay three numbers: no plainer as a struct, which would be made anew for each entry.
#![tactic(auto)]

ghost use Rattle.std.specs.Prelude.{◌≡◌, true, ◌+◌, ◌<◌, ◌≤◌, length};
ghost use Rattle.integers.specs.Number.{+1};
ghost use Rattle.words.specs.Limit as Limit;
ghost use Rattle.bittaking.specs.Taking.{NearTimes, NearAdded, TakenAs, NearTaken, LineTaken, TakenAt};

use integers::{cut_to, equal, plus, times};
use words::list::at_or;

// A form is taken so many times; and what is added to the constant, and to the entry of each bit where the bit meets itself, 0 for bits past the list's end.
#[derive(Clone, Copy)]
pub struct Taken<'a> {
    pub times: i64,
    pub constant: i64,
    pub added: &'a [i64],
    ghost near: { NearTaken times constant added.now },
}

// Past it k × e + a is outside the range, whatever k above 0 and a near 0 are.
const FAR: i64 = 536870912;

// k × e + a, where that is in the range; else a number outside it.
pub fn take(k: i64, e: i64, a: i64) -> i64
    requires { NearTimes k × NearAdded a }
    ensures { TakenAs k e a result }
{
    plus(times(k, cut_to(FAR, e)), a)
}

// The number at a place of a list, taken so.
fn take_at(line: &mut [i64], j: usize, k: i64, a: i64)
    requires { NearTimes k × NearAdded a }
    ensures { TakenAt k a j line.old line.new }
{
    if j < line.len() {
        line[j] = take(k, line[j], a);
    }
}

// Whether a form is taken once, with nothing added to its entries.
fn is_plain(taken: &Taken) -> bool
    ensures { result ≡ true → (taken.now.times ≡ +1) × (length taken.now.added.now ≡ 0) }
{
    if taken.added.len() == 0 {
        return equal(taken.times, 1);
    }
    false
}

// The line of bit i, of m entries from i on, taken so.
pub fn take_line(line: &mut [i64], taken: &Taken, i: usize, m: usize)
    requires { i + m ≤ Limit.bits }
    ensures { (length line.new ≡ length line.old) × LineTaken taken.now.times taken.now.added.now i m line.old line.new }
{
    if is_plain(taken) {
        return;
    }
    for d in 1..m {
        take_at(line, i + d, taken.times, 0);
    }
    take_at(line, i, taken.times, at_or(taken.added, i, 0));
}
