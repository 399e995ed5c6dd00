// The printed sheet of a row system: the lines of its rows and products, one after another.
// A page that is too short, or words with a fault, are refused.
#![tactic(auto)]

ghost use Rattle.std.specs.Prelude.{◌≡◌, ◌≤◌, length, take, IfOk};
ghost use Rattle.words.specs.Faults.{written_of};
ghost use Rattle.words.specs.LaidAt.{LaidAt};
ghost use Rattle.words.specs.Limit as Limit;
ghost use Rattle.decimals.specs.Printed.{Prints};
ghost use Rattle.sheets.specs.Sheet.{sheet_text, sheet as sheet_answer, sheet_page};
ghost use Rattle.sheets.specs.EightyColumns.{EightyColumns};

use decimals::Page;
use rowreading::read_rows;
use rowreading::rows::starts_row;
use sheetlines::put_row;
use words::fault::{Fault, Refusal};
use words::word::Word;

// The lines of all rows, from the front of a page on. Other walks over rows have this `for` and another body, and one of them all is no plainer.
// k counts the rows and not the words.
fn put_rows(ws: &[u32], page: &mut Page)
    requires { (length ws.now ≤ Limit.row_words) × (page.old.at ≡ 0) }
    ensures { Prints page.old (sheet_text ws.now) page.new }
{
    let mut k: usize = 0;
    for (at, &w) in ws.iter().enumerate() {
        let head = Word::from(w);
        if starts_row(w) {
            put_row(page, k, head, &ws[at + 1..]);
            k += 1;
        }
    }
}

// The sheet over the front of a list of bytes, as far as it goes; answers how many bytes there are.
fn put_sheet(ws: &[u32], bytes: &mut [u8]) -> usize
    requires { length ws.now ≤ Limit.row_words }
    ensures { LaidAt bytes.old 0 (sheet_text ws.now) bytes.new result }
{
    let mut page = Page { bytes, at: 0 };
    put_rows(ws, &mut page);
    page.at
}

// Writes the sheet to the front of the page; a refusal changes nothing. The bytes are counted by writing to an empty page.
pub fn sheet(ws: &[u32], page: &mut [u8]) -> Result<usize, Refusal>
    ensures answer { written_of result ≡ sheet_answer ws.now (length page.old) }
    ensures page { page.new ≡ sheet_page ws.now page.old }
    ensures room { IfOk result (λ n. n ≤ length page.new) }
    ensures front { IfOk result (λ n. take n page.new ≡ sheet_text ws.now) }
    ensures lines { EightyColumns (written_of result) page.new }
{
    read_rows(ws)?;
    let bytes = put_sheet(ws, &mut []);
    if page.len() < bytes {
        return Err(Refusal {
            fault: Fault::OutputTooShort,
            place: 0,
        });
    }
    put_sheet(ws, page);
    Ok(bytes)
}
