// Reads the bytes of a row system's words from standard input and prints its sheet, or the refusal.
#![tactic(auto)]

ghost use Rattle.std.specs.Prelude.{◌≡◌, length, take};
ghost use Rattle.std.specs.Counts.{IsPrefixLen};
ghost use Rattle.encoding.specs.Bytes.{bytes_words};
ghost use Rattle.sheet.specs.Text.{page_bytes, printed_sheet};

use encoding::front_words;
use inputs::read_full;
use lines::{put_refusal, put_too_long};
use sheets::sheet;
use std::io;
use std::io::Write;

// The words above which it says 16, and the bytes of one word more. Lists of fixed memory: there is no heap.
const WORDS: usize = 16384;

const BYTES: usize = 65540;

// The bytes of the page.
const PAGE: usize = 262144;

// Writes what the program prints to the front of a page; answers how many bytes it has.
fn sheet_page(bytes: &[u8], page: &mut [u8]) -> usize
    requires { length page.old ≡ page_bytes }
    ensures text { take result page.new ≡ printed_sheet (bytes_words bytes.now) }
    ensures count { IsPrefixLen result page.new }
{
    if WORDS < bytes.len() / 4 {
        return put_too_long(page);
    }
    let mut words = [0u32; WORDS];
    let n = front_words(bytes, &mut words);
    match sheet(&words[..n], page) {
        Ok(k) => k,
        Err(r) => put_refusal(page, r),
    }
}

// The bytes of 16,385 words are read at most. The promises go from the bytes that read_full filled to the bytes that are handed to write_all.
// Its lines stay in each program: a function of them, which takes a closure and the clauses that it needs, is no plainer.
fn main(rt: HostRuntime) -> io::Result<()> {
    let mut bytes = [0u8; BYTES];
    let n = read_full(&mut rt.stdin(), &mut bytes)?;
    let mut page = [0u8; PAGE];
    let end = sheet_page(&bytes[..n], &mut page);
    rt.stdout().write_all(&page[..end])
}
