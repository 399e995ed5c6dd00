// The quadratic form over bits of a row system.
// A band and a row stay two lists: no plainer as a struct, which each call would lend again. BitsListed stays a clause: it names the system and n.
// n stays a parameter beside them: the clauses name it as the number of bits, and that it is the length of the row is what BandAndRow says.
#![tactic(auto)]

ghost use Rattle.std.specs.Prelude.{◌≡◌, ◌⊎◌, true, [], ◌∷◌, ◌*◌, ◌<◌, ◌≤◌, length, take, min, IfOk};
ghost use Rattle.integers.specs.Lists.{all};
ghost use Rattle.words.specs.Faults.{written_of};
ghost use Rattle.words.specs.Limit as Limit;
ghost use Rattle.words.specs.Refusal.{accepted};
ghost use Rattle.words.specs.Overlay.{overlay};
ghost use Rattle.words.specs.Word.{in_range};
ghost use Rattle.rowsystems.specs.Reading.{read_rows};
ghost use Rattle.bitforms.specs.BitForm.{bit_rows_of};
ghost use Rattle.bitforms.specs.FormAnswer.{row_fits, all_in_range, bit_form, bit_formed};
ghost use Rattle.bitforms.specs.Matrix.{entries_from};
ghost use Rattle.bittables.specs.Systems.{rows_of_system};
ghost use Rattle.bitforms.specs.FormWords.{form_words};
ghost use Rattle.bitwriting.specs.Bands.{BandAndRow, Held};
ghost use Rattle.bitwriting.specs.Lined.{Fitting, entry_taken};
ghost use Rattle.bitsharing.specs.FormShares.{FormShares};
ghost use Rattle.bitform.specs.Answered.{Answered, AnsweredBy, constant_by, fits_by, words_by, BitsListed, RoomFor};

use bitbounds::entries_bound;
use bitchecks::check_rows;
use bitreading::{SHORT, list_bits};
use bittables::table::{BitSystem, BitTable, BitVariable, system_of};
use bittaking::{Taken, take};
use bitwriting::{BAND, count_lines, lines_of, make_band, write_lines};
use integers::equal;
use rowreading::read_rows;
use words::domain::Domain;
use words::fault::{Fault, Refusal};
use words::kind::Kind;
use words::limit::IN_ALL;
use words::list::lay;
use words::word::Word;
use words::{in_range, limit};

const TOO_LARGE: Refusal = Refusal {
    fault: Fault::FormTooLarge,
    place: 0,
};

// Writes a word at a place.
fn put_word(out: &mut [u32], at: usize, word: Word)
    ensures { out.new ≡ overlay out.old at (word ∷ []) }
{
    lay(out, at, &[word.bits()]);
}

// Writes the words of a form that fits; the number of words.
fn write_form(
    out: &mut [u32],
    system: &BitSystem,
    band: &mut [i64],
    row: &mut [i64],
    taken: &Taken,
    n: usize,
    lines: usize,
    ready: usize,
    c: i64,
) -> usize
    requires bits_listed { BitsListed system.now n }
    requires banded { BandAndRow n lines band.old row.old × (0 < n → 0 < lines) × (ready ≤ n) × Held taken.now system.now n 0 ready band.old }
    requires fitting { (c ≡ constant_by system.now.words.now taken.now) × (fits_by system.now.words.now taken.now ≡ true) }
    ensures { (result ≡ length (words_by system.now.words.now taken.now)) × (out.new ≡ overlay out.old 0 (words_by system.now.words.now taken.now)) }
{
    put_word(out, 0, Word::of_number(Kind::Number, c));
    let end = write_lines(out, 1, n, band, row, system, taken, lines, ready);
    put_word(out, end, Word::new(Kind::RowsEnd, 0));
    end + 1
}

// Makes a band hold the lines of all bits, where it has room for them; how many bits' lines stand in it.
fn whole_band(
    band: &mut [i64],
    row: &mut [i64],
    system: &BitSystem,
    taken: &Taken,
    n: usize,
    lines: usize,
) -> usize
    requires fitting { Fitting system.now n }
    requires banded { BandAndRow n lines band.old row.old × (0 < n → 0 < lines) }
    ensures held { Held taken.now system.now n 0 result band.new }
    ensures whole { (result ≡ n) ⊎ (result ≡ 0) }
{
    if n == 0 {
        return 0;
    }
    if lines < n {
        return 0;
    }
    make_band(band, row, system, taken, 0, lines)
}

// Whether it is known beforehand, of rows that fit, that all entries are in the range and that their words have room: of a form whose lines the
// band has no room for at once, that is taken once with nothing added.
fn surely_fits(
    room: usize,
    system: &BitSystem,
    row: &mut [i64],
    taken: &Taken,
    n: usize,
    lines: usize,
) -> bool
    requires { (length row.old ≡ n) × (n ≤ Limit.bits) × (all (row_fits n) (rows_of_system system.now) ≡ true) }
    ensures { result ≡ true → RoomFor n room × (all_in_range (entries_from (entry_taken taken.now system.now) 0 n) ≡ true) }
{
    if n <= lines {
        return false;
    }
    if taken.added.len() != 0 {
        return false;
    }
    if !equal(taken.times, 1) {
        return false;
    }
    if room < (3 * (n * (n + 1)) + 4) / 2 {
        return false;
    }
    entries_bound(system, row) <= limit::HIGHEST as usize
}

// Of rows and a constant that fit: 24 for an entry, 16, or the words. The lines are made again to be
// written only where the band has no room for all of them.
fn form_lines(
    out: &mut [u32],
    system: &BitSystem,
    band: &mut [i64],
    row: &mut [i64],
    taken: &Taken,
    n: usize,
    lines: usize,
    c: i64,
) -> Result<usize, Refusal>
    requires bits_listed { BitsListed system.now n }
    requires banded { BandAndRow n lines band.old row.old × (0 < n → 0 < lines) }
    requires fitting { (all (row_fits n) (bit_rows_of system.now.words.now) ≡ true) × (c ≡ constant_by system.now.words.now taken.now) × (in_range c ≡ true) }
    ensures { AnsweredBy system.now.words.now taken.now out.old out.new (written_of result) }
{
    let ready = whole_band(band, row, system, taken, n, lines);
    let Some(end) = count_lines(1, n, band, row, system, taken, lines, ready) else {
        return Err(TOO_LARGE);
    };
    if out.len() <= end {
        return Err(Refusal {
            fault: Fault::OutputTooShort,
            place: 0,
        });
    }
    Ok(write_form(out, system, band, row, taken, n, lines, ready, c))
}

// The same, in one walk where it is known beforehand that all fits.
fn write_or_count(
    out: &mut [u32],
    system: &BitSystem,
    band: &mut [i64],
    row: &mut [i64],
    taken: &Taken,
    n: usize,
    lines: usize,
    c: i64,
) -> Result<usize, Refusal>
    requires bits_listed { BitsListed system.now n }
    requires banded { BandAndRow n lines band.old row.old × (0 < n → 0 < lines) }
    requires fitting { (all (row_fits n) (bit_rows_of system.now.words.now) ≡ true) × (c ≡ constant_by system.now.words.now taken.now) × (in_range c ≡ true) }
    ensures { AnsweredBy system.now.words.now taken.now out.old out.new (written_of result) }
{
    if surely_fits(out.len(), system, row, taken, n, lines) {
        return Ok(write_form(out, system, band, row, taken, n, lines, 0, c));
    }
    form_lines(out, system, band, row, taken, n, lines, c)
}

// Of at most 1,024 bits: 24 for a row or the constant, or what comes after.
#[inline(never)]
fn form_checked(
    out: &mut [u32],
    system: &BitSystem,
    band: &mut [i64],
    row: &mut [i64],
    taken: &Taken,
    n: usize,
    lines: usize,
) -> Result<usize, Refusal>
    requires bits_listed { BitsListed system.now n }
    requires banded { BandAndRow n lines band.old row.old × (0 < n → 0 < lines) }
    ensures { AnsweredBy system.now.words.now taken.now out.old out.new (written_of result) }
{
    let Some(squares) = check_rows(system, row) else {
        return Err(TOO_LARGE);
    };
    let c = take(taken.times, squares, taken.constant);
    if !in_range(c) {
        return Err(TOO_LARGE);
    }
    write_or_count(out, system, band, row, taken, n, lines, c)
}

// The same of at most N bits, with a band of N × N numbers: a larger one would take longer to be cleared than all the rest.
#[inline(never)]
fn form_of_few<const N: usize, const NUMBERS: usize>(
    out: &mut [u32],
    system: &BitSystem,
    taken: &Taken,
    n: usize,
) -> Result<usize, Refusal>
    requires { BitsListed system.now n × (n ≤ N) × (N ≤ 160) × (N * N ≤ NUMBERS) × (NUMBERS ≤ 25600) }
    ensures { AnsweredBy system.now.words.now taken.now out.old out.new (written_of result) }
{
    let mut band = [0i64; NUMBERS];
    let mut row = [0i64; N];
    form_checked(out, system, &mut band[..n * n], &mut row[..n], taken, n, n)
}

// The same of up to 1,024 bits. The lists have the most elements: fixed memory.
#[inline(never)]
fn form_of_many(
    out: &mut [u32],
    system: &BitSystem,
    taken: &Taken,
    n: usize,
) -> Result<usize, Refusal>
    requires { BitsListed system.now n }
    ensures { AnsweredBy system.now.words.now taken.now out.old out.new (written_of result) }
{
    let mut band = [0i64; BAND];
    let mut row = [0i64; limit::BITS];
    let lines = lines_of(n);
    form_checked(
        out,
        system,
        &mut band[..lines * n],
        &mut row[..n],
        taken,
        n,
        lines,
    )
}

// The same, with a row over bits and a band of lines to work with.
pub fn form_listed(
    out: &mut [u32],
    system: &BitSystem,
    taken: &Taken,
    n: usize,
) -> Result<usize, Refusal>
    requires { BitsListed system.now n }
    ensures { AnsweredBy system.now.words.now taken.now out.old out.new (written_of result) }
{
    if n <= 16 {
        return form_of_few::<16, 256>(out, system, taken, n);
    }
    if n <= 32 {
        return form_of_few::<32, 1024>(out, system, taken, n);
    }
    if n <= 48 {
        return form_of_few::<48, 2304>(out, system, taken, n);
    }
    if n <= 64 {
        return form_of_few::<64, 4096>(out, system, taken, n);
    }
    if n <= 80 {
        return form_of_few::<80, 6400>(out, system, taken, n);
    }
    if n <= 96 {
        return form_of_few::<96, 9216>(out, system, taken, n);
    }
    if n <= 112 {
        return form_of_few::<112, 12544>(out, system, taken, n);
    }
    if n <= 128 {
        return form_of_few::<128, 16384>(out, system, taken, n);
    }
    if n <= 144 {
        return form_of_few::<144, 20736>(out, system, taken, n);
    }
    if n <= 160 {
        return form_of_few::<160, 25600>(out, system, taken, n);
    }
    form_of_many(out, system, taken, n)
}

// Of accepted words: 23, or what comes after. The lists have N elements: fixed memory.
#[inline(never)]
fn form_within<const N: usize>(ws: &[u32], out: &mut [u32]) -> Result<usize, Refusal>
    requires reads { read_rows ws.now ≡ accepted }
    requires room { (min (length ws.now) Limit.in_all ≤ N) × (N ≤ Limit.in_all) }
    ensures { Answered ws.now out.old out.new (written_of result) }
{
    let mut domains = [Domain::new(0, 0); N];
    let mut bits = [BitVariable { first: 0, count: 0 }; N];
    let listed = list_bits(ws, &mut domains, &mut bits);
    let n = listed.all;
    if limit::BITS < n {
        return Err(Refusal {
            fault: Fault::TooManyBits,
            place: 0,
        });
    }
    let table = BitTable {
        domains: &domains,
        bits: &bits,
    };
    let system = system_of(ws, table, listed.start);
    let taken = Taken {
        times: 1,
        constant: 0,
        added: &[],
    };
    form_listed(out, &system, &taken, n)
}

// Of accepted words: short ones have short lists.
fn form_accepted(ws: &[u32], out: &mut [u32]) -> Result<usize, Refusal>
    requires { read_rows ws.now ≡ accepted }
    ensures { Answered ws.now out.old out.new (written_of result) }
{
    if ws.len() <= 64 {
        return form_within::<64>(ws, out);
    }
    if ws.len() <= 256 {
        return form_within::<256>(ws, out);
    }
    if ws.len() <= SHORT {
        return form_within::<SHORT>(ws, out);
    }
    form_within::<IN_ALL>(ws, out)
}

// Writes the form to the front of the output; a refusal changes nothing.
pub fn bit_form(ws: &[u32], out: &mut [u32]) -> Result<usize, Refusal>
    ensures answer { written_of result ≡ bit_form ws.now (length out.old) }
    ensures output { out.new ≡ bit_formed ws.now out.old }
    ensures room { IfOk result (λ n. n ≤ length out.new) }
    ensures front { IfOk result (λ n. take n out.new ≡ form_words ws.now) }
    ensures shared { FormShares ws.now (written_of result) out.new }
{
    read_rows(ws)?;
    form_accepted(ws, out)
}
