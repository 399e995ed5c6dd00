// The printed lines of a row or a product, one after another on a page, by the printers of a Page (see decimals).
// That the page's place stays far below 2^64 is asked of each function by what it prints at most, that a row's number has six digits and its terms are few
// of each that prints them: no type carries it, as these are of different values, and the place and the number move on.
#![tactic(auto)]

ghost use Rattle.std.specs.Prelude.{◌≡◌, ◌+◌, ◌*◌, ◌<◌, ◌≤◌};
ghost use Rattle.integers.specs.Terms.{◌·◌};
ghost use Rattle.words.specs.Limit as Limit;
ghost use Rattle.words.specs.Word.{signed};
ghost use Rattle.decimals.specs.Printed.{Prints};
ghost use Rattle.rowsystems.specs.OneWord.{row_of};
ghost use Rattle.rowsystems.specs.Row.{product};
ghost use Rattle.rowsystems.specs.RowSystem.{variable_at, terms_in, constant_in};
ghost use Rattle.sheetlines.specs.Lines.{cell, line_end, term_text, room_after, term_lines, sum_lines, row_lines};

use decimals::Page;
use rowreading::rows::term_count;
use words::kind::Kind;
use words::word::Word;

// A term, its coefficient the number of a word.
fn put_cell(page: &mut Page, number: Word, variable: usize)
    requires { (page.old.at + 23 < 1099511627776) × (variable < 268435456) }
    ensures text { Prints page.old (cell (signed number · variable)) page.new }
    ensures end { page.new.at ≡ page.old.at + 23 }
{
    page.number(10, number.signed());
    page.text(b" v");
    page.left(11, variable)
}

// The blanks after the last term of a line with room for more, and the line feed.
fn put_line_end(page: &mut Page, room: usize)
    requires { (page.old.at + 81 < 1099511627776) × (room ≤ 3) }
    ensures text { Prints page.old (line_end room) page.new }
    ensures end { page.new.at ≡ page.old.at + (23 * room + 4) }
{
    page.blanks(23 * room + 3);
    page.byte(b'\n')
}

// A term where the line has room for so many.
fn put_term(page: &mut Page, room: usize, number: Word, variable: usize)
    requires { (page.old.at + 120 < 1099511627776) × (variable < 268435456) }
    ensures text { Prints page.old (term_text room (signed number · variable)) page.new }
    ensures size { page.new.at ≤ page.old.at + 35 }
{
    if room == 0 {
        put_line_end(page, 0);
        page.blanks(8);
    }
    put_cell(page, number, variable)
}

// The room after a term.
#[tactic(auto, unfolding(crate::specs::Lines::room_after))]
fn room_after(room: usize) -> usize
    ensures { result ≡ room_after room }
{
    if room == 0 { 2 } else { room - 1 }
}

// The terms of a row, up to the end of their last line.
fn put_terms(page: &mut Page, ws: &[u32], n: usize)
    requires { (page.old.at + 2500 < 1099511627776) × (n ≤ Limit.terms) }
    ensures text { Prints page.old (term_lines 3 (terms_in ws.now n)) page.new }
    ensures size { page.new.at ≤ page.old.at + 2400 }
{
    let mut room: usize = 3;
    for k in 0..n {
        let number = Word::at(ws, 2 * k + 1);
        let variable = Word::at(ws, 2 * k).payload();
        put_term(page, room, number, variable);
        room = room_after(room);
    }
    put_line_end(page, room)
}

// A row by its number, the two bytes of its sign, its terms and its constant.
fn put_sum(page: &mut Page, k: usize, sign: &[u8; 2], ws: &[u32], n: usize)
    requires { (page.old.at + 2600 < 1099511627776) × (k < 1000000) × (n ≤ Limit.terms) }
    ensures text { Prints page.old (sum_lines k sign.now (terms_in ws.now n) (constant_in ws.now n)) page.new }
    ensures size { page.new.at ≤ page.old.at + 2500 }
{
    page.right(6, false, k);
    page.text(sign);
    put_terms(page, ws, n);
    page.number(80, Word::at(ws, 2 * n).signed());
    page.byte(b'\n')
}

// A product, as a row of three terms with coefficient 1 and the constant 0.
fn put_product(page: &mut Page, k: usize, ws: &[u32])
    requires { (page.old.at + 2600 < 1099511627776) × (k < 1000000) }
    ensures text { let ws = ws.now in Prints page.old (row_lines k (product (variable_at ws 0) (variable_at ws 1) (variable_at ws 2))) page.new }
    ensures size { page.new.at ≤ page.old.at + 2500 }
{
    let row = [
        Word::at(ws, 0).bits(),
        1,
        Word::at(ws, 1).bits(),
        1,
        Word::at(ws, 2).bits(),
        1,
        0,
    ];
    put_sum(page, k, b":=", &row, 3)
}

// The row or product with this head, before the words ws.
#[tactic(auto, unfolding(rowsystems::specs::OneWord::row_of, crate::specs::Lines::row_lines, words::specs::Bytes::bytes, integers::specs::Lists::list_of))]
pub fn put_row(page: &mut Page, k: usize, head: Word, ws: &[u32])
    requires { (page.old.at + 2600 < 1099511627776) × (k < 1000000) }
    ensures text { Prints page.old (row_lines k (row_of head ws.now)) page.new }
    ensures size { page.new.at ≤ page.old.at + 2500 }
{
    let n = term_count(head.bits());
    if head.is(Kind::AtMost) {
        return put_sum(page, k, b"<=", ws, n);
    }
    if head.is(Kind::Equal) {
        return put_sum(page, k, b"= ", ws, n);
    }
    put_product(page, k, ws)
}
