// Runs recorded cases of the calls, one after the other, from standard input, and prints the answer of each on a line.
// A case is numbers of 32 bits, the lowest byte first: the call, the room, how many words, how many values, the words, the values.
// Of a text each word is a byte; of a word above 255 the lowest byte counts.
// A call that writes is lent the front of a longer list, as long as the room; what it may not write is looked at afterwards.
#![tactic(auto)]

use answer::{Answer, BitValues, Wrote};
use bestbits::best_bits_by;
use bitenergy::bit_energy;
use bitform::bit_form;
use bitvalues::bit_values;
use call::{BitsCall, Call, ModelCall, PairCall, RowsCall};
use cases::input::{Head, next_head, read_front};
use cases::lent::{Element, front, is_marked, lend};
use checking::check;
use filling::fill;
use modeljudge::judge_model;
use pairs::{pair_check, pair_fill, pair_judge_model, pair_translate};
use reasoning::reason;
use rowjudge::judge_rows;
use sheets::sheet;
use solutions::solutions;
use std::io;
use std::io::{Read, Write};
use texts::read_text;
use translation::translate;
use valuebits::value_bits;
use words::fault::Refusal;

mod answer;
mod call;

// How many cases are read at most.
const CASES: usize = 1000000;

// How long the lists are that are read to or lent: of model words, of row words, of values, of bytes. Fixed memory: there is no heap.
const MODEL_WORDS: usize = 12288;

const ROW_WORDS: usize = 262200;

const VALUES: usize = 4200;

const PAGE: usize = 32768;

// Prints the answer of a call that writes nothing.
fn print_answer<W: Write>(to: &mut W, answer: Answer<'_>) -> io::Result<()> {
    writeln!(to, "{answer}")
}

// Prints the answer of a call that is lent the front of a marked list; the line ends in " changed" where it wrote what it may not.
fn print_lent<T: Element, A: Wrote<T>, W: Write, F: FnOnce(&mut [T]) -> A>(
    to: &mut W,
    list: &mut [T],
    room: usize,
    call: F,
) -> io::Result<()>
    requires { F.IsAlwaysCallable call }
{
    let answer = lend(list, room, call).to_list(list);
    let changed = if is_marked(list, answer.written()) {
        ""
    } else {
        " changed"
    };
    writeln!(to, "{answer}{changed}")
}

// The answer of a call on a model.
fn answer_model<W: Write>(
    to: &mut W,
    call: ModelCall,
    words: &[u32],
    values: &[i32],
    room: usize,
) -> io::Result<()> {
    match call {
        ModelCall::Check => print_answer(to, Answer::from(check(words))),
        ModelCall::Translate => print_lent(to, &mut [u32::MARK; ROW_WORDS], room, |out| {
            translate(words, out)
        }),
        ModelCall::Judge => print_answer(to, Answer::from(judge_model(words, values))),
        ModelCall::Fill => print_lent(to, &mut [i32::MARK; VALUES], room, |out| {
            fill(words, values, out)
        }),
        ModelCall::Reason => print_answer(to, Answer::from(reason(words, values))),
        ModelCall::Solutions => print_lent(to, &mut [i32::MARK; VALUES], room, |out| {
            solutions(words, out)
        }),
    }
}

// The answer of a call on a pair, for the candidate that the first value names.
fn answer_pair<W: Write>(
    to: &mut W,
    call: PairCall,
    words: &[u32],
    values: &[i32],
    room: usize,
) -> io::Result<()> {
    let Some((&first, values)) = values.split_first() else {
        return Ok(());
    };
    // a number, as the calls for C take it
    let candidate = if first == 1 { 1 } else { 2 };
    match call {
        PairCall::Check => print_answer(to, Answer::from(pair_check(words, candidate))),
        PairCall::Translate => print_lent(to, &mut [u32::MARK; ROW_WORDS], room, |out| {
            pair_translate(words, candidate, out)
        }),
        PairCall::Judge => print_answer(
            to,
            Answer::from(pair_judge_model(words, candidate, values)),
        ),
        PairCall::Fill => print_lent(to, &mut [i32::MARK; VALUES], room, |out| {
            pair_fill(words, candidate, values, out)
        }),
    }
}

// Reads the words and values of a case on a model or a pair, and answers it.
fn with_model<R: Read, F: FnOnce(&[u32], &[i32]) -> io::Result<()>>(
    input: &mut R,
    head: Head,
    answer: F,
) -> io::Result<()>
    requires { F.IsAlwaysCallable answer }
{
    let mut words = [0u32; MODEL_WORDS];
    read_front(input, &mut words, head.words)?;
    let mut values = [0i32; VALUES];
    read_front(input, &mut values, head.values)?;
    answer(front(&words, head.words), front(&values, head.values))
}

// Reads the words of a case on a row system, for a judge the values too, and answers it. Input, output and head stay parameters, here and below: a
// struct of them would lend both handles again at each call.
fn answer_rows<R: Read, W: Write>(
    input: &mut R,
    to: &mut W,
    call: RowsCall,
    head: Head,
) -> io::Result<()> {
    let mut words = [0u32; ROW_WORDS];
    read_front(input, &mut words, head.words)?;
    let rows = front(&words, head.words);
    match call {
        RowsCall::Judge => {
            let mut values = [0i32; VALUES];
            read_front(input, &mut values, head.values)?;
            print_answer(
                to,
                Answer::from(judge_rows(rows, front(&values, head.values))),
            )
        }
        RowsCall::Sheet => print_lent(to, &mut [u8::MARK; PAGE], head.room, |page| {
            sheet(rows, page)
        }),
        RowsCall::Bits => print_lent(to, &mut [u32::MARK; MODEL_WORDS], head.room, |out| {
            bit_form(rows, out)
        }),
    }
}

// Reads the words of a case on a row system and the bits of its form, then bits, values, or a variable's number and a direction, and answers it.
fn answer_bits<R: Read, W: Write>(
    input: &mut R,
    to: &mut W,
    call: BitsCall,
    head: Head,
) -> io::Result<()> {
    let mut words = [0u32; ROW_WORDS];
    read_front(input, &mut words, head.words)?;
    let rows = front(&words, head.words);
    match call {
        BitsCall::Values => {
            let mut bits = [0u8; VALUES];
            read_front(input, &mut bits, head.values)?;
            print_lent(to, &mut [i32::MARK; VALUES], head.room, |out| {
                BitValues(bit_values(rows, front(&bits, head.values), out))
            })
        }
        BitsCall::Energy => {
            let mut bits = [0u8; VALUES];
            read_front(input, &mut bits, head.values)?;
            print_answer(
                to,
                Answer::from(bit_energy(rows, front(&bits, head.values))),
            )
        }
        BitsCall::OfValues => {
            let mut values = [0i32; VALUES];
            read_front(input, &mut values, head.values)?;
            print_lent(to, &mut [u8::MARK; VALUES], head.room, |out| {
                value_bits(rows, front(&values, head.values), out)
            })
        }
        BitsCall::Best => {
            let mut asked = [0u32; 2];
            read_front(input, &mut asked, head.values)?;
            print_lent(to, &mut [u32::MARK; MODEL_WORDS], head.room, |out| {
                best_bits_by(rows, asked[0] as usize, asked[1], out)
            })
        }
    }
}

// Reads a text, and answers it.
fn answer_text<R: Read, W: Write>(input: &mut R, to: &mut W, head: Head) -> io::Result<()> {
    let mut bytes = [0u8; PAGE];
    read_front(input, &mut bytes, head.words)?;
    let text = front(&bytes, head.words);
    print_lent(to, &mut [u32::MARK; ROW_WORDS], head.room, |out| {
        read_text(text, out)
    })
}

// No call: it is wrong on purpose, so that the mark " changed" is seen once. It fills all of the list and says that the last element is not written.
fn write_too_far(out: &mut [u32]) -> Result<usize, Refusal> {
    out.fill(0);
    Ok(out.len().saturating_sub(1))
}

// Reads the rest of a case and answers it. A call that is not known has words and values as one on a pair has.
fn answer_case<R: Read, W: Write>(input: &mut R, to: &mut W, head: Head) -> io::Result<()> {
    match Call::try_from(head.call) {
        Ok(Call::TooFar) => print_lent(to, &mut [u32::MARK; VALUES], head.room, |out| {
            write_too_far(out)
        }),
        Ok(Call::Model(call)) => with_model(input, head, |words, values| {
            answer_model(to, call, words, values, head.room)
        }),
        Ok(Call::Rows(call)) => answer_rows(input, to, call, head),
        Ok(Call::Bits(call)) => answer_bits(input, to, call, head),
        Ok(Call::Text) => answer_text(input, to, head),
        Ok(Call::Pair(call)) => with_model(input, head, |words, values| {
            answer_pair(to, call, words, values, head.room)
        }),
        Err(_) => with_model(input, head, |_, values| {
            if values.is_empty() {
                return Ok(());
            }
            to.write_all(b"unknown\n")
        }),
    }
}

fn main(rt: HostRuntime) -> io::Result<()> {
    for _ in 0..CASES {
        let Some(head) = next_head(&mut rt.stdin())? else {
            return Ok(());
        };
        answer_case(&mut rt.stdin(), &mut rt.stdout(), head)?;
    }
    Ok(())
}
