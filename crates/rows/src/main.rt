// Reads the bytes of a model's words from standard input and prints the words of its row system, one a line, or the refusal.
#![tactic(auto)]

ghost use Rattle.std.specs.Prelude.{◌≡◌, ◌*◌, ◌≤◌, length, take};
ghost use Rattle.std.specs.Counts.{IsPrefixLen};
ghost use Rattle.encoding.specs.Bytes.{bytes_words};
ghost use Rattle.lines.specs.Lines.{program_words};
ghost use Rattle.rows.specs.Text.{rows_text};

use encoding::front_words;
use inputs::read_full;
use lines::put_answer;
use std::io;
use std::io::Write;
use translation::translate;

// The words of a model at most and one more, and their bytes: translate refuses a longer model. Lists of fixed memory: there is no heap.
const WORDS: usize = 8193;

const BYTES: usize = 32772;

// The row words that are printed at most, and the bytes of their lines.
const ROOM: usize = 16384;

const PAGE: usize = 147456;

// Writes what the program prints to the front of a page; answers how many bytes it has.
fn rows_page(bytes: &[u8], page: &mut [u8]) -> usize
    requires bytes { length bytes.now ≤ 32772 }
    requires page { 9 * program_words ≤ length page.old }
    ensures text { take result page.new ≡ rows_text (bytes_words bytes.now) }
    ensures count { IsPrefixLen result page.new }
{
    let mut words = [0u32; WORDS];
    let n = front_words(bytes, &mut words);
    let mut out = [0u32; ROOM];
    let answer = translate(&words[..n], &mut out);
    put_answer(page, answer, &out)
}

// The bytes of 8,193 words are read at most. The promises go from the bytes that read_full filled to the bytes that are handed to write_all; what
// standard input gives and standard output takes no contract says.
// Its lines stay in each program: a function of them, which takes a closure and the clauses that it needs, is no plainer.
fn main(rt: HostRuntime) -> io::Result<()> {
    let mut bytes = [0u8; BYTES];
    let n = read_full(&mut rt.stdin(), &mut bytes)?;
    let mut page = [0u8; PAGE];
    let end = rows_page(&bytes[..n], &mut page);
    rt.stdout().write_all(&page[..end])
}
