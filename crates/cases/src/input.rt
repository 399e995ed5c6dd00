// Reads cases from standard input.
ghost use Rattle.std.specs.Prelude.{◌≡◌, ◌<◌, IfOk};
ghost use Rattle.cases.specs.HeadBytes.{number_at, head_of, NextHead};

use crate::lent::Element;
use encoding::word_of_bytes;
use inputs::read_full;
use std::io;
use std::io::Read;
use words::list::{at_or, put};

// The bytes of a head.
const HEAD: usize = 16;

// The head of a case: the call, how long a list is lent, how many words, how many values.
#[derive(Clone, Copy, Debug, PartialEq, Eq)]
pub struct Head {
    pub call: u32,
    pub room: usize,
    pub words: usize,
    pub values: usize,
}

// The next number of the input; a byte that the input does not have counts as 0.
fn next<R: Read>(input: &mut R) -> io::Result<u32> {
    let mut bytes = [0u8; 4];
    read_full(input, &mut bytes)?;
    Ok(u32::from_le_bytes(bytes))
}

// Number k of the bytes of a head.
#[tactic(auto, unfolding(crate::specs::HeadBytes::number_at))]
fn number_at(bytes: &[u8], k: usize) -> u32
    requires { k < 4 }
    ensures { result ≡ number_at bytes.now k }
{
    let at = 4 * k;
    word_of_bytes(
        at_or(bytes, at, 0),
        at_or(bytes, at + 1, 0),
        at_or(bytes, at + 2, 0),
        at_or(bytes, at + 3, 0),
    )
}

// The head that bytes write.
#[tactic(auto, unfolding(crate::specs::HeadBytes::head_of))]
fn head_of(bytes: &[u8]) -> Head
    ensures { result ≡ head_of bytes.now }
{
    Head {
        call: number_at(bytes, 0),
        room: number_at(bytes, 1) as usize,
        words: number_at(bytes, 2) as usize,
        values: number_at(bytes, 3) as usize,
    }
}

// The head of the next case: that of the next 16 bytes of the input. None where the input ends before them.
pub fn next_head<R: Read>(input: &mut R) -> io::Result<Option<Head>>
    ensures { IfOk result (NextHead (R.remaining input.old) (R.remaining input.new)) }
{
    let mut bytes = [0u8; HEAD];
    if read_full(input, &mut bytes)? < HEAD {
        return Ok(None);
    }
    Ok(Some(head_of(&bytes)))
}

// Reads n elements to the front of a list; those that do not fit are dropped.
pub fn read_front<T: Element, R: Read>(input: &mut R, list: &mut [T], n: usize) -> io::Result<()> {
    for i in 0..n {
        let number = next(input)?;
        put(list, i, T::of_number(number));
    }
    Ok(())
}
