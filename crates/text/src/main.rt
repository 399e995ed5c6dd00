// Reads FlatZinc from standard input and prints the words of its model, one a line, or the refusal.
#![tactic(auto)]

ghost use Rattle.std.specs.Prelude.{◌≡◌, ◌*◌, ◌≤◌, length, take};
ghost use Rattle.std.specs.Counts.{IsPrefixLen};
ghost use Rattle.words.specs.Limit as Limit;
ghost use Rattle.text.specs.Text.{printed_text};

use inputs::read_full;
use lines::{put_answer, put_too_long};
use std::io;
use std::io::{Read, Write};
use texts::read_text;
use words::limit;

// The bytes above which it says 16, and one more. Lists of fixed memory: there is no heap.
const MOST: usize = 524288;

const BYTES: usize = 524289;

// The rows that they are read to, with room for all.
const ROW: usize = 1024;

const ROWS: usize = 513;

// The bytes of the lines of as many words as a model may have.
const PAGE: usize = 73728;

// Writes what the program prints to the front of a page; answers how many bytes it has. A model that is not refused has room.
fn text_page(text: &[u8], page: &mut [u8]) -> usize
    requires { 9 * Limit.model_words ≤ length page.old }
    ensures text { take result page.new ≡ printed_text text.now }
    ensures count { IsPrefixLen result page.new }
{
    if MOST < text.len() {
        return put_too_long(page);
    }
    let mut out = [0u32; limit::MODEL_WORDS];
    let answer = read_text(text, &mut out);
    put_answer(page, answer, &out)
}

// Reads a text to rows of bytes, and prints its words or the refusal. The promises go from the bytes that read_full filled to the bytes that are
// handed to write_all; what standard input gives and standard output takes no contract says.
fn print_text<R: Read, W: Write>(
    input: &mut R,
    output: &mut W,
    rows: &mut [[u8; ROW]],
) -> io::Result<()> {
    let text = rows.as_flattened_mut();
    let n = read_full(input, text)?;
    let mut page = [0u8; PAGE];
    let end = text_page(&text[..n], &mut page);
    output.write_all(&page[..end])
}

// 524,289 bytes are read at most. Its lines stay in each program, as in rows.
fn main(rt: HostRuntime) -> io::Result<()> {
    let mut rows = [[0u8; ROW]; ROWS];
    let mut input = rt.stdin().take(BYTES as u64);
    print_text(&mut input, &mut rt.stdout(), &mut rows)
}
