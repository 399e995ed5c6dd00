// A file as words, and the command on them.
use crate::calls::{Work, run};
use crate::files::{Read, read_file};
use crate::places::{Source, named, place_of, texts_of};
use crate::values::{Taken, values_of};
use answers::named::Name;
use answers::refusals::told_refusal;
use answers::usage::{told_file, told_usage, told_usage_of};
use answers::{Answer, Style};
use commandline::Asked;
use encoding::words_of_bytes;
use hexreading::{Wrong, words_of};
use labels::position::position_of;
use requests::which::Which;
use rowlines::Names;
use std::alloc::{AllocError, Global};
use texts::read_text;
use words::kind::Kind;
use words::limit::MODEL_WORDS;
use words::word::Word;

// How a file is read.
#[derive(Clone, Copy, PartialEq, Eq)]
enum Form {
    Text,
    Hexadecimal,
    Bytes,
    MiniZinc,
}

// How a file is read: as the options say, else as its name ends.
fn form_of(asked: &Asked) -> Form {
    if asked.flags.text {
        return Form::Text;
    }
    if asked.flags.hex {
        return Form::Hexadecimal;
    }
    if asked.flags.bytes {
        return Form::Bytes;
    }
    by_name(asked.file)
}

fn ends_in(name: &str, ending: &str) -> bool {
    ending.len() < name.len() && name.ends_with(ending)
}

fn by_name(name: &str) -> Form {
    if ends_in(name, ".fzn") {
        return Form::Text;
    }
    if ends_in(name, ".mzn") {
        return Form::MiniZinc;
    }
    if ends_in(name, ".bin") {
        return Form::Bytes;
    }
    Form::Hexadecimal
}

// The strict text of a .fzn file: the place where FlatZinc as MiniZinc writes it is carried over to it.
fn flatten(text: Vec<u8>) -> Vec<u8> {
    text
}

// A MiniZinc model, which this command does not carry over by itself.
fn minizinc(rt: &HostRuntime, asked: &Asked) -> Result<Answer, AllocError> {
    if let Some(data) = asked.data {
        if let Read::Not(answer) = read_file(rt, data)? {
            return Ok(answer);
        }
    }
    if let Read::Not(answer) = read_file(rt, asked.file)? {
        return Ok(answer);
    }
    told_file(
        rt.alloc(),
        asked.file,
        "MiniZinc models are read where the launcher of pearrummy is installed with MiniZinc",
    )
}

// The words of a file's bytes.
fn of_bytes(alloc: Global, bytes: &[u8]) -> Result<Vec<u32>, AllocError> {
    let mut words = vec![in alloc; 0u32; bytes.len() / 4]?;
    words_of_bytes(bytes, &mut words);
    Ok(words)
}

// The answer that a text is no words in hexadecimal.
fn told_hex(alloc: Global, name: &str, text: &[u8], wrong: Wrong) -> Result<Answer, AllocError> {
    match wrong {
        Wrong::Memory => Err(AllocError),
        Wrong::Digits { place, digits } => {
            let p = position_of(text, place);
            let line = p.line;
            let column = p.column;
            let why = format!(in alloc;
                "line {line}, column {column}: a word has eight hexadecimal digits, not {digits}"
            )?;
            told_file(alloc, name, why.as_str())
        }
        Wrong::Byte { place } => {
            let p = position_of(text, place);
            let line = p.line;
            let column = p.column;
            let why = format!(in alloc;
                "line {line}, column {column}: no hexadecimal digit (FlatZinc text wants --text, bytes want --bytes)"
            )?;
            told_file(alloc, name, why.as_str())
        }
    }
}

// Whether words are those of a row system: as the options say, else as they end.
fn is_rows(asked: &Asked, words: &[u32]) -> bool {
    if asked.flags.model || asked.candidate != 0 {
        return false;
    }
    if asked.flags.rows {
        return true;
    }
    match words.last() {
        None => false,
        Some(last) => Word::from(*last).is(Kind::RowsEnd),
    }
}

// The command on a source, with values where it takes them.
fn with_values(
    rt: &HostRuntime,
    asked: &Asked,
    work: &Work,
    texts: Option<&[&str]>,
) -> Result<Answer, AllocError> {
    let alloc = rt.alloc();
    if work.rows && asked.which != Which::Text && !asked.which.takes_rows() {
        return told_usage_of(
            alloc,
            "these are the words of a row system, and this command takes a model",
            asked.which.name(),
        );
    }
    if !asked.which.takes_values() {
        return run(alloc, asked.which, work, &[]);
    }
    let file = match asked.values_file {
        None => Vec::new(alloc),
        Some(name) => match read_file(rt, name)? {
            Read::Bytes(bytes) => bytes,
            Read::Not(answer) => return Ok(answer),
        },
    };
    match values_of(alloc, asked, texts, &file)? {
        Taken::Not(answer) => Ok(answer),
        Taken::Values(values) => run(alloc, asked.which, work, &values),
    }
}

// The command on words that come from no text.
fn on_words(
    rt: &HostRuntime,
    asked: &Asked,
    words: &[u32],
    style: Style,
) -> Result<Answer, AllocError> {
    if asked.which == Which::Text {
        return told_usage(
            rt.alloc(),
            "text takes FlatZinc text, a file whose name ends in .fzn, or --text",
        );
    }
    let work = Work {
        source: Source {
            name: asked.file,
            text: None,
            words,
        },
        names: Names {
            given: &[],
            other: Name::Unnamed,
        },
        rows: is_rows(asked, words),
        candidate: asked.candidate,
        out_bytes: asked.flags.out_bytes,
        style,
    };
    with_values(rt, asked, &work, None)
}

// The command on a text.
fn on_text(
    rt: &HostRuntime,
    asked: &Asked,
    text: &[u8],
    style: Style,
) -> Result<Answer, AllocError> {
    let alloc = rt.alloc();
    let mut room = vec![in alloc; 0u32; MODEL_WORDS]?;
    let n = match read_text(text, &mut room) {
        Ok(n) => n,
        Err(refusal) => {
            let none = Source {
                name: asked.file,
                text: Some(text),
                words: &[],
            };
            return told_refusal(alloc, asked.file, refusal, &place_of(&none, refusal), style);
        }
    };
    let texts = texts_of(alloc, text)?;
    let given = named(alloc, &texts)?;
    let work = Work {
        source: Source {
            name: asked.file,
            text: Some(text),
            words: &room[..n.min(MODEL_WORDS)],
        },
        names: Names {
            given: &given,
            other: Name::Auxiliary,
        },
        rows: false,
        candidate: 0,
        out_bytes: asked.flags.out_bytes,
        style,
    };
    with_values(rt, asked, &work, Some(&texts))
}

// The command on a file's bytes.
fn on_bytes(
    rt: &HostRuntime,
    asked: &Asked,
    form: Form,
    bytes: Vec<u8>,
    style: Style,
) -> Result<Answer, AllocError> {
    let alloc = rt.alloc();
    match form {
        Form::Bytes => on_words(rt, asked, &of_bytes(alloc, &bytes)?, style),
        Form::Hexadecimal => match words_of(alloc, &bytes) {
            Ok(words) => on_words(rt, asked, &words, style),
            Err(wrong) => told_hex(alloc, asked.file, &bytes, wrong),
        },
        _ => {
            if asked.flags.rows || asked.candidate != 0 {
                return told_usage_of(
                    alloc,
                    "--rows and --candidate are of words, and this file is read as text",
                    asked.file,
                );
            }
            on_text(rt, asked, &flatten(bytes), style)
        }
    }
}

// What a command line asks of its file.
pub fn answer(rt: &HostRuntime, asked: &Asked, style: Style) -> Result<Answer, AllocError> {
    let form = form_of(asked);
    if form == Form::MiniZinc {
        return minizinc(rt, asked);
    }
    let bytes = match read_file(rt, asked.file)? {
        Read::Bytes(bytes) => bytes,
        Read::Not(answer) => return Ok(answer),
    };
    if asked.data.is_some() {
        return told_usage_of(
            rt.alloc(),
            "--data is of a MiniZinc model, and this file is not read as one",
            asked.file,
        );
    }
    on_bytes(rt, asked, form, bytes, style)
}
