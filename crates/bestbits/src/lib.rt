// The form of the best solutions of a row system.
#![tactic(auto)]

ghost use Rattle.std.specs.Prelude.{◌≡◌, ◌+◌, ◌<◌, ◌≤◌, pos, length, take, replicate, IfOk};
ghost use Rattle.integers.specs.Number.{+0};
ghost use Rattle.words.specs.Faults.{written_of};
ghost use Rattle.words.specs.Refusal.{accepted};
ghost use Rattle.rowsystems.specs.Reading.{read_rows};
ghost use Rattle.bitlines.specs.Sizes as Size;
ghost use Rattle.bestforms.specs.BestForm.{best_words};
ghost use Rattle.bestforms.specs.BestAnswer.{best_bits, best_bitted};
ghost use Rattle.bestforms.specs.BestShares.{BestShares};
ghost use Rattle.bestforms.specs.Numbered.{best_bits_by, best_bitted_by, NumberedShares};
ghost use Rattle.bitform.specs.Answered.{BitsListed};
ghost use Rattle.bestbits.specs.Answered.{AnsweredBest, VariableListed, sign, start};

use bestforms::Direction;
use bitform::form_listed;
use bitreading::list_bits;
use bitrows::add_variable;
use bittables::span_at;
use bittables::table::{BitSystem, BitTable, BitVariable, system_of};
use bittaking::Taken;
use rowreading::read_rows;
use words::domain::Domain;
use words::fault::{Fault, Refusal};
use words::limit;

// What a weight of a variable counts in its distance.
#[tactic(auto, unfolding(integers::specs::Number::neg))]
fn sign_of(direction: Direction) -> i64
    ensures { result ≡ sign direction }
{
    match direction {
        Direction::Least => 1,
        Direction::Greatest => -1,
    }
}

// The distance where all bits are 0.
fn start_of(direction: Direction, width: usize) -> i64
    requires { width ≤ Size.widest }
    ensures { result ≡ start direction width }
{
    match direction {
        Direction::Least => 0,
        Direction::Greatest => width as i64,
    }
}

// How often the form is taken: the width and 1, above every distance.
fn times_of(width: usize) -> i64
    requires { width ≤ Size.widest }
    ensures { result ≡ pos (width + 1) }
{
    width as i64 + 1
}

// Of a variable of the row system: what comes after. The list that is added has a 0 for each bit before.
fn best_listed(
    out: &mut [u32],
    system: &BitSystem,
    added: &mut [i64],
    variable: usize,
    direction: Direction,
    n: usize,
) -> Result<usize, Refusal>
    requires listed { BitsListed system.now n }
    requires none_added { added.old ≡ replicate n +0 }
    requires named { VariableListed system.now variable }
    ensures { AnsweredBest system.now.words.now variable direction out.old out.new (written_of result) }
{
    add_variable(added, &system.table, variable, sign_of(direction));
    let width = span_at(system.table.domains, variable);
    let taken = Taken {
        times: times_of(width),
        constant: start_of(direction, width),
        added,
    };
    form_listed(out, system, &taken, n)
}

// Of accepted words: 23, 26, or what comes after. The lists have the most elements: fixed memory.
fn best_accepted(
    ws: &[u32],
    variable: usize,
    direction: Direction,
    out: &mut [u32],
) -> Result<usize, Refusal>
    requires { read_rows ws.now ≡ accepted }
    ensures { AnsweredBest ws.now variable direction out.old out.new (written_of result) }
{
    let mut domains = [Domain::new(0, 0); limit::IN_ALL];
    let mut bits = [BitVariable { first: 0, count: 0 }; limit::IN_ALL];
    let listed = list_bits(ws, &mut domains, &mut bits);
    let n = listed.all;
    if limit::BITS < n {
        return Err(Refusal {
            fault: Fault::TooManyBits,
            place: 0,
        });
    }
    if listed.variables <= variable {
        return Err(Refusal {
            fault: Fault::NoSuchVariable,
            place: 0,
        });
    }
    let mut added = [0i64; limit::BITS];
    let table = BitTable {
        domains: &domains,
        bits: &bits,
    };
    let system = system_of(ws, table, listed.start);
    best_listed(out, &system, &mut added[..n], variable, direction, n)
}

// Writes the form to the front of the output; a refusal changes nothing.
pub fn best_bits(
    ws: &[u32],
    variable: usize,
    direction: Direction,
    out: &mut [u32],
) -> Result<usize, Refusal>
    ensures answer { written_of result ≡ best_bits ws.now variable direction (length out.old) }
    ensures output { out.new ≡ best_bitted ws.now variable direction out.old }
    ensures room { IfOk result (λ n. n ≤ length out.new) }
    ensures front { IfOk result (λ n. take n out.new ≡ best_words ws.now variable direction) }
    ensures shared { BestShares ws.now variable direction (written_of result) out.new }
{
    read_rows(ws)?;
    best_accepted(ws, variable, direction, out)
}

// The same with the direction as a number, as a host in C gives it: 0 the least, 1 the greatest. Of another number no row system has the variable, so that 26
// is refused in its turn.
pub fn best_bits_by(
    ws: &[u32],
    variable: usize,
    direction: u32,
    out: &mut [u32],
) -> Result<usize, Refusal>
    ensures answer { written_of result ≡ best_bits_by ws.now variable direction (length out.old) }
    ensures output { out.new ≡ best_bitted_by ws.now variable direction out.old }
    ensures room { IfOk result (λ n. n ≤ length out.new) }
    ensures shared { NumberedShares ws.now variable direction (written_of result) out.new }
{
    if direction == 0 {
        return best_bits(ws, variable, Direction::Least, out);
    }
    if direction == 1 {
        return best_bits(ws, variable, Direction::Greatest, out);
    }
    best_bits(ws, limit::IN_ALL, Direction::Least, out)
}
