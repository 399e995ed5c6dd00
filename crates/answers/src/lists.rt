// Words, values, solutions and a sheet, as the answers print them.
ghost use Rattle.std.specs.Prelude.{◌≡◌, ◌++◌, ◌*◌, ◌≤◌, codes, length, IfOk, OnOk};
ghost use Rattle.std.specs.Fmt.{signed_decimal};
ghost use Rattle.std.specs.List.{flat_map};
ghost use Rattle.answers.specs.Lists.{bytes_said, list_text, lists_of, quoted_word, separated, sheet_said, solutions_said, values_said, word_bytes, word_line, words_said};
ghost use Rattle.answers.specs.Said.{Says};

use crate::escapes::put_json;
use crate::{Answer, Style, printed, put};
use hexadecimal::hex_digits;
use std::alloc::{AllocError, Global};

// A word, on a line.
fn put_word(out: &mut Vec<u8>, w: u32) -> Result<(), AllocError>
    ensures { OnOk result (out.new.items ≡ out.old.items ++ word_line w) }
{
    put(out, &hex_digits(w))?;
    put(out, b"\n")
}

// Words, each on a line.
fn put_words(out: &mut Vec<u8>, words: &[u32]) -> Result<(), AllocError>
    ensures { OnOk result (out.new.items ≡ out.old.items ++ flat_map word_line words.now) }
{
    for &w in words {
        put_word(out, w)?;
    }
    Ok(())
}

// A word, in quotes.
fn put_quoted(out: &mut Vec<u8>, w: u32) -> Result<(), AllocError>
    ensures { OnOk result (out.new.items ≡ out.old.items ++ quoted_word w) }
{
    put(out, b"\"")?;
    put(out, &hex_digits(w))?;
    put(out, b"\"")
}

// Words, in quotes, each after a comma.
fn put_more_quoted(out: &mut Vec<u8>, words: &[u32]) -> Result<(), AllocError>
    ensures { OnOk result (out.new.items ≡ out.old.items ++ flat_map (λ w. codes "," ++ quoted_word w) words.now) }
{
    for &w in words {
        put(out, b",")?;
        put_quoted(out, w)?;
    }
    Ok(())
}

// Words, in quotes, with commas between them.
fn put_quoted_words(out: &mut Vec<u8>, words: &[u32]) -> Result<(), AllocError>
    ensures { OnOk result (out.new.items ≡ out.old.items ++ separated (codes ",") quoted_word words.now) }
{
    match words {
        [] => Ok(()),
        [first, rest @ ..] => {
            put_quoted(out, *first)?;
            put_more_quoted(out, rest)
        }
    }
}

// The answer that is words.
pub fn told_words(alloc: Global, words: &[u32], style: Style) -> Result<Answer, AllocError>
    ensures { IfOk result (Says (words_said style words.now)) }
{
    let mut out = Vec::new(alloc);
    match style {
        Style::Text => put_words(&mut out, words)?,
        Style::Json => {
            put(&mut out, b"{\"answer\":\"done\",\"words\":[")?;
            put_quoted_words(&mut out, words)?;
            put(&mut out, b"]}\n")?;
        }
    }
    Ok(printed(alloc, out, 0))
}

// The bytes of a word.
fn put_word_bytes(out: &mut Vec<u8>, w: u32) -> Result<(), AllocError>
    ensures { OnOk result (out.new.items ≡ out.old.items ++ word_bytes w) }
{
    put(
        out,
        &[
            (w % 256) as u8,
            (w / 256 % 256) as u8,
            (w / 65536 % 256) as u8,
            (w / 16777216) as u8,
        ],
    )
}

fn put_bytes(out: &mut Vec<u8>, words: &[u32]) -> Result<(), AllocError>
    ensures { OnOk result (out.new.items ≡ out.old.items ++ flat_map word_bytes words.now) }
{
    for &w in words {
        put_word_bytes(out, w)?;
    }
    Ok(())
}

// The answer that is words as bytes.
pub fn told_bytes(alloc: Global, words: &[u32]) -> Result<Answer, AllocError>
    ensures { IfOk result (Says (bytes_said words.now)) }
{
    let mut out = Vec::new(alloc);
    put_bytes(&mut out, words)?;
    Ok(printed(alloc, out, 0))
}

// A value.
fn put_value(alloc: Global, out: &mut Vec<u8>, v: i32) -> Result<(), AllocError>
    ensures { OnOk result (out.new.items ≡ out.old.items ++ signed_decimal v) }
{
    let text = format!(in alloc; "{v}")?;
    put(out, text.as_bytes())
}

// Values, each after a separator.
fn put_more_values(
    alloc: Global,
    out: &mut Vec<u8>,
    between: &[u8],
    values: &[i32],
) -> Result<(), AllocError>
    ensures { OnOk result (out.new.items ≡ out.old.items ++ flat_map (λ v. between.now ++ signed_decimal v) values.now) }
{
    for &v in values {
        put(out, between)?;
        put_value(alloc, out, v)?;
    }
    Ok(())
}

// Values with a separator between them.
fn put_values(
    alloc: Global,
    out: &mut Vec<u8>,
    between: &[u8],
    values: &[i32],
) -> Result<(), AllocError>
    ensures { OnOk result (out.new.items ≡ out.old.items ++ separated between.now signed_decimal values.now) }
{
    match values {
        [] => Ok(()),
        [first, rest @ ..] => {
            put_value(alloc, out, *first)?;
            put_more_values(alloc, out, between, rest)
        }
    }
}

// The answer that values hold, with these and those of the auxiliaries.
pub fn told_values(alloc: Global, values: &[i32], style: Style) -> Result<Answer, AllocError>
    ensures { IfOk result (Says (values_said style values.now)) }
{
    let mut out = Vec::new(alloc);
    match style {
        Style::Text => {
            put_values(alloc, &mut out, b" ", values)?;
            put(&mut out, b"\n")?;
        }
        Style::Json => {
            put(&mut out, b"{\"answer\":\"holds\",\"values\":[")?;
            put_values(alloc, &mut out, b",", values)?;
            put(&mut out, b"]}\n")?;
        }
    }
    Ok(printed(alloc, out, 0))
}

// What stands around a list of values and between them.
#[derive(Clone, Copy)]
struct Marks<'a> {
    before: &'a [u8],
    between: &'a [u8],
    after: &'a [u8],
}

// One list of values.
fn put_list(
    alloc: Global,
    out: &mut Vec<u8>,
    marks: &Marks,
    values: &[i32],
) -> Result<(), AllocError>
    ensures { OnOk result (out.new.items ≡ out.old.items ++ list_text marks.now.before.now marks.now.between.now marks.now.after.now values.now) }
{
    put(out, marks.before)?;
    put_values(alloc, out, marks.between, values)?;
    put(out, marks.after)
}

// So many lists of n values, one after another.
fn put_lists(
    alloc: Global,
    out: &mut Vec<u8>,
    marks: &Marks,
    values: &[i32],
    n: usize,
    count: usize,
) -> Result<(), AllocError>
    requires { count * n ≤ length values.now }
    ensures { OnOk result (out.new.items ≡ out.old.items ++ flat_map (list_text marks.now.before.now marks.now.between.now marks.now.after.now) (lists_of count n values.now)) }
{
    let mut rest = values;
    let mut left = count;
    // No `for`: the invariant speaks of how many are left.
    while 0 < left {
        let (first, others) = rest.split_at(n);
        put_list(alloc, out, marks, first)?;
        rest = others;
        left -= 1;
    }
    Ok(())
}

// The marks of a solution, on a line.
const ON_A_LINE: Marks<'static> = Marks {
    before: b"",
    between: b" ",
    after: b"\n",
};

// Solutions of n values, as a list of JSON.
#[tactic(auto, using(crate::proofs::Listed::one_left))]
fn put_listed(
    alloc: Global,
    out: &mut Vec<u8>,
    values: &[i32],
    n: usize,
    count: usize,
) -> Result<(), AllocError>
    requires { count * n ≤ length values.now }
    ensures { OnOk result (out.new.items ≡ out.old.items ++ separated (codes ",") (list_text (codes "[") (codes ",") (codes "]")) (lists_of count n values.now)) }
{
    if count == 0 {
        return Ok(());
    }
    let first = Marks {
        before: b"[",
        between: b",",
        after: b"]",
    };
    let (one, others) = values.split_at(n);
    put_list(alloc, out, &first, one)?;
    let more = Marks {
        before: b",[",
        between: b",",
        after: b"]",
    };
    put_lists(alloc, out, &more, others, n, count - 1)?;
    Ok(())
}

// The answer that is so many solutions of n values each.
pub fn told_solutions(
    alloc: Global,
    values: &[i32],
    n: usize,
    count: usize,
    style: Style,
) -> Result<Answer, AllocError>
    requires { count * n ≤ length values.now }
    ensures { IfOk result (Says (solutions_said style (lists_of count n values.now))) }
{
    let mut out = Vec::new(alloc);
    match style {
        Style::Text => put_lists(alloc, &mut out, &ON_A_LINE, values, n, count)?,
        Style::Json => {
            put(&mut out, b"{\"answer\":\"done\",\"solutions\":[")?;
            put_listed(alloc, &mut out, values, n, count)?;
            put(&mut out, b"]}\n")?;
        }
    }
    Ok(printed(alloc, out, 0))
}

// The answer that is a sheet.
pub fn told_sheet(alloc: Global, page: &[u8], style: Style) -> Result<Answer, AllocError>
    ensures { IfOk result (Says (sheet_said style page.now)) }
{
    let mut out = Vec::new(alloc);
    match style {
        Style::Text => put(&mut out, page)?,
        Style::Json => {
            put(&mut out, b"{\"answer\":\"done\",\"sheet\":")?;
            put_json(&mut out, page)?;
            put(&mut out, b"}\n")?;
        }
    }
    Ok(printed(alloc, out, 0))
}
