// The calls, and what is said of their answers.
use crate::places::{Source, constraint_of, place_of};
use answers::counts::{Counts, told_counts, told_in_order};
use answers::judgements::{
    Outside, told_false, told_false_row, told_holds, told_no_row, told_outside, told_reason,
};
use answers::lists::{told_bytes, told_sheet, told_solutions, told_values, told_words};
use answers::named::{Behind, Constraint};
use answers::refusals::told_refusal;
use answers::{Answer, Style};
use bitform::bit_form;
use checking::check;
use filling::{Filling, fill};
use modeljudge::judge_model;
use pairs::{pair_check, pair_fill, pair_judge_model, pair_translate};
use reasoning::answer::Reason;
use reasoning::reason;
use requests::which::Which;
use rowjudge::judge_rows;
use rowlines::{Names, told_rows};
use sheets::sheet;
use solutions::solutions;
use std::alloc::{AllocError, Global};
use translation::translate;
use variables::starts_variable;
use words::answer::Verdict;
use words::fault::{Fault, Refusal};
use words::kind::Kind;
use words::limit::{IN_ALL, LISTED_LISTS, LISTED_VARIABLES, ROW_WORDS};
use words::word::Word;

// the words of a form at most, and the bytes of a line of a sheet, of which there are no more than words
const FORM_WORDS: usize = 1574402;

const LINE_BYTES: usize = 81;

// What a command works on, and how it answers.
#[derive(Clone, Copy)]
pub struct Work<'n, 'a> {
    pub source: Source<'n, 'a>,
    pub names: Names<'a>,
    // whether the words are a row system's
    pub rows: bool,
    // 1 or 2, 0 where the words are of one model
    pub candidate: u32,
    pub out_bytes: bool,
    pub style: Style,
}

// A refusal of the file.
fn refused(alloc: Global, work: &Work, refusal: Refusal) -> Result<Answer, AllocError> {
    let place = place_of(&work.source, refusal);
    told_refusal(alloc, work.source.name, refusal, &place, work.style)
}

// The answer that a value of a variable is outside its bounds, among the words that declare it.
fn outside(
    alloc: Global,
    work: &Work,
    words: &[u32],
    values: &[i32],
    number: usize,
) -> Result<Answer, AllocError> {
    let mut left = number;
    let mut found = None;
    for (i, &w) in words.iter().enumerate() {
        if starts_variable(Word::from(w)) {
            if left == 0 {
                found = Some(i);
                break;
            }
            left -= 1;
        }
    }
    let (lower, upper) = bounds_at(words, found.unwrap_or(0));
    let outside = Outside {
        variable: work.names.variable(number),
        value: values.get(number).copied().unwrap_or(0) as i64,
        lower,
        upper,
    };
    told_outside(alloc, &outside, work.style)
}

// The bounds of the variable that begins at a word.
fn bounds_at(words: &[u32], i: usize) -> (i64, i64) {
    let head = Word::at(words, i);
    if head.is(Kind::Boolean) || words.len() <= i {
        return (0, 1);
    }
    (head.signed(), Word::at(words, i + 1).signed())
}

// A constraint; of a candidate, its number alone.
fn constraint<'a>(work: &Work<'_, 'a>, number: usize) -> Constraint<'a> {
    if work.candidate != 0 {
        return Constraint {
            number,
            behind: Behind::Nothing,
        };
    }
    constraint_of(&work.source, number)
}

// What a judge says, of a model or of rows.
fn judged(alloc: Global, work: &Work, values: &[i32], said: Verdict) -> Result<Answer, AllocError> {
    match said {
        Verdict::Holds => told_holds(alloc, work.style),
        Verdict::OutOfBounds(number) => outside(alloc, work, work.source.words, values, number),
        Verdict::False(number) => {
            if work.rows {
                return told_false_row(alloc, number, work.style);
            }
            told_false(alloc, &constraint(work, number), work.style)
        }
    }
}

// Whether the words of a row system are in order: judged without values, they are refused for nothing but that.
fn rows_refused(words: &[u32]) -> Option<Refusal> {
    match judge_rows(words, &[]) {
        Ok(_) => None,
        Err(refusal) => {
            if refusal.fault == Fault::WrongValueCount {
                return None;
            }
            Some(refusal)
        }
    }
}

fn run_check(alloc: Global, work: &Work) -> Result<Answer, AllocError> {
    let words = work.source.words;
    if work.rows {
        return match rows_refused(words) {
            None => told_in_order(alloc, work.style),
            Some(refusal) => refused(alloc, work, refusal),
        };
    }
    let answer = if work.candidate == 0 {
        check(words)
    } else {
        pair_check(words, work.candidate)
    };
    match answer {
        Err(refusal) => refused(alloc, work, refusal),
        Ok(counts) => {
            let counts = Counts {
                variables: counts.variables,
                constraints: counts.constraints,
                auxiliaries: counts.auxiliaries,
                rows: counts.rows,
                words: counts.words,
            };
            told_counts(alloc, counts, work.style)
        }
    }
}

// The words of the row system, written to a list: the file's own, or those of the model.
fn row_words(work: &Work, out: &mut [u32]) -> Result<usize, Refusal> {
    if work.candidate == 0 {
        return translate(work.source.words, out);
    }
    pair_translate(work.source.words, work.candidate, out)
}

// What is done with the words of the row system.
fn on_rows(alloc: Global, which: Which, work: &Work) -> Result<Answer, AllocError> {
    if work.rows {
        return with_rows(alloc, which, work, work.source.words);
    }
    let mut room = vec![in alloc; 0u32; ROW_WORDS]?;
    match row_words(work, &mut room) {
        Ok(n) => with_rows(alloc, which, work, &room[..n.min(ROW_WORDS)]),
        Err(refusal) => refused(alloc, work, refusal),
    }
}

// The same, where these are the words.
fn with_rows(alloc: Global, which: Which, work: &Work, rows: &[u32]) -> Result<Answer, AllocError> {
    match which {
        Which::Rows => match rows_refused(rows) {
            None => told_rows(alloc, &work.names, rows, work.style),
            Some(refusal) => refused(alloc, work, refusal),
        },
        Which::Sheet => run_sheet(alloc, work, rows),
        Which::Bits => run_bits(alloc, work, rows),
        _ => words_of(alloc, work, rows),
    }
}

// Words, as the options say.
fn words_of(alloc: Global, work: &Work, words: &[u32]) -> Result<Answer, AllocError> {
    if work.out_bytes {
        return told_bytes(alloc, words);
    }
    told_words(alloc, words, work.style)
}

fn run_sheet(alloc: Global, work: &Work, rows: &[u32]) -> Result<Answer, AllocError> {
    let room = rows.len().saturating_mul(LINE_BYTES);
    let mut page = vec![in alloc; 0u8; room]?;
    match sheet(rows, &mut page) {
        Ok(n) => told_sheet(alloc, &page[..n.min(page.len())], work.style),
        Err(refusal) => refused(alloc, work, refusal),
    }
}

fn run_bits(alloc: Global, work: &Work, rows: &[u32]) -> Result<Answer, AllocError> {
    let mut form = vec![in alloc; 0u32; FORM_WORDS]?;
    match bit_form(rows, &mut form) {
        Ok(n) => words_of(alloc, work, &form[..n.min(FORM_WORDS)]),
        Err(refusal) => refused(alloc, work, refusal),
    }
}

fn run_judge(alloc: Global, work: &Work, values: &[i32]) -> Result<Answer, AllocError> {
    let words = work.source.words;
    let answer = if work.rows {
        judge_rows(words, values)
    } else if work.candidate == 0 {
        judge_model(words, values)
    } else {
        pair_judge_model(words, work.candidate, values)
    };
    match answer {
        Ok(said) => judged(alloc, work, values, said),
        Err(refusal) => refused(alloc, work, refusal),
    }
}

fn run_fill(alloc: Global, work: &Work, values: &[i32]) -> Result<Answer, AllocError> {
    let mut filled = vec![in alloc; 0i32; IN_ALL]?;
    let answer = if work.candidate == 0 {
        fill(work.source.words, values, &mut filled)
    } else {
        pair_fill(work.source.words, work.candidate, values, &mut filled)
    };
    match answer {
        Err(refusal) => refused(alloc, work, refusal),
        Ok(Filling::Values(n)) => told_values(alloc, &filled[..n.min(IN_ALL)], work.style),
        Ok(Filling::OutOfBounds(k)) => judged(alloc, work, values, Verdict::OutOfBounds(k)),
        Ok(Filling::False(k)) => judged(alloc, work, values, Verdict::False(k)),
    }
}

// A value of a variable or an auxiliary that is outside its bounds, which the row system declares.
fn outside_rows(
    alloc: Global,
    work: &Work,
    values: &[i32],
    number: usize,
) -> Result<Answer, AllocError> {
    let mut room = vec![in alloc; 0u32; ROW_WORDS]?;
    match row_words(work, &mut room) {
        Ok(n) => outside(alloc, work, &room[..n.min(ROW_WORDS)], values, number),
        Err(refusal) => refused(alloc, work, refusal),
    }
}

fn run_reason(alloc: Global, work: &Work, values: &[i32]) -> Result<Answer, AllocError> {
    match reason(work.source.words, values) {
        Err(refusal) => refused(alloc, work, refusal),
        Ok(Reason::Nothing) => told_no_row(alloc, work.style),
        Ok(Reason::OutOfBounds(number)) => outside_rows(alloc, work, values, number),
        Ok(
            Reason::Because {
                row,
                constraint: number,
                holds,
            },
        ) => told_reason(alloc, row, &constraint(work, number), holds, work.style),
    }
}

fn run_solutions(alloc: Global, work: &Work) -> Result<Answer, AllocError> {
    let words = work.source.words;
    let n = match check(words) {
        Ok(counts) => counts.variables,
        Err(refusal) => return refused(alloc, work, refusal),
    };
    let mut lists = vec![in alloc; 0i32; LISTED_VARIABLES * LISTED_LISTS]?;
    match solutions(words, &mut lists) {
        Err(refusal) => refused(alloc, work, refusal),
        Ok(count) => match count.checked_mul(n) {
            Some(all) => {
                if all <= lists.len() {
                    return told_solutions(alloc, &lists, n, count, work.style);
                }
                Err(AllocError)
            }
            None => Err(AllocError),
        },
    }
}

// What a command says.
pub fn run(alloc: Global, which: Which, work: &Work, values: &[i32]) -> Result<Answer, AllocError> {
    match which {
        Which::Check => run_check(alloc, work),
        Which::Judge => run_judge(alloc, work, values),
        Which::Fill => run_fill(alloc, work, values),
        Which::Reason => run_reason(alloc, work, values),
        Which::Solutions => run_solutions(alloc, work),
        Which::Text => words_of(alloc, work, work.source.words),
        _ => on_rows(alloc, which, work),
    }
}
