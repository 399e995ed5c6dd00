// The command line: its options and commands, read by clap.
#![tactic(auto)]

mod help;

use clap::{Arg, ArgAction, ArgMatches, Command};
pub use help::HELP;
use requests::options::{Flags, Named, Times};
use requests::which::Which;
use std::alloc::{AllocError, Global};

// What a command line asks.
#[derive(Drop)]
pub struct Asked<'m, 'a: 'm> {
    pub which: Which,
    pub file: &'a str,
    pub flags: Flags,
    pub times: Times,
    pub named: Named,
    // 1 or 2, 0 where none is asked for
    pub candidate: u32,
    pub values_file: Option<&'a str>,
    pub data: Option<&'a str>,
    pub values: Option<&'m [&'a str]>,
}

// An option that stands by itself.
fn flag<'a>(alloc: Global, name: &'a str, help: &'a str) -> Arg<'a> {
    Arg::new(alloc, name)
        .long(name)
        .action(ArgAction::SetTrue)
        .global(true)
        .help(help)
}

// An option that takes a word.
fn with_word<'a>(alloc: Global, name: &'a str, word: &'a str, help: &'a str) -> Arg<'a> {
    Arg::new(alloc, name)
        .long(name)
        .action(ArgAction::Append)
        .global(true)
        .value_name(word)
        .help(help)
}

// A command that reads a file.
fn of_file<'a>(alloc: Global, name: &'a str, about: &'a str) -> Result<Command<'a>, AllocError> {
    let file = Arg::new(alloc, "file")
        .value_name("FILE")
        .help("the file that is read, - for standard input");
    let values = Arg::new(alloc, "value")
        .value_name("VALUE")
        .num_args(0..)
        .allow_negative_numbers(true)
        .help("NUMBER or NAME=NUMBER, for the commands that take values");
    Command::new(alloc, name)
        .about(about)
        .arg(file)?
        .arg(values)
}

// The ways of reading a file.
fn with_forms<'a>(alloc: Global, all: Command<'a>) -> Result<Command<'a>, AllocError> {
    all.arg(flag(alloc, "text", "the file is FlatZinc text"))?
        .arg(flag(alloc, "hex", "the file is words in hexadecimal"))?
        .arg(flag(alloc, "bytes", "the file is words as bytes"))
}

// What the words of a file are.
fn with_kinds<'a>(alloc: Global, all: Command<'a>) -> Result<Command<'a>, AllocError> {
    all.arg(flag(alloc, "model", "the words are a model's"))?
        .arg(flag(alloc, "rows", "the words are a row system's"))?
        .arg(with_word(
            alloc,
            "candidate",
            "1|2",
            "the words are of two candidates over one variable table; the command works on one",
        ))
}

// What else is read, and how the answer is written.
fn with_files<'a>(alloc: Global, all: Command<'a>) -> Result<Command<'a>, AllocError> {
    all.arg(with_word(alloc, "values", "FILE", "the values stand in FILE"))?
        .arg(with_word(alloc, "data", "FILE", "data of a MiniZinc model"))?
        .arg(flag(alloc, "out-bytes", "words are written as bytes"))?
        .arg(flag(alloc, "json", "the answer as one line of JSON"))
}

// The commands that print what they make of a model.
fn with_models<'a>(alloc: Global, all: Command<'a>) -> Result<Command<'a>, AllocError> {
    all.subcommand(of_file(
        alloc,
        "check",
        "is the model in order, and what does its row system need?",
    )?)?
    .subcommand(of_file(
        alloc,
        "translate",
        "the words of a model's row system, one a line",
    )?)
}

fn with_rows<'a>(alloc: Global, all: Command<'a>) -> Result<Command<'a>, AllocError> {
    all.subcommand(of_file(
        alloc,
        "rows",
        "a row system, or that of a model, for reading",
    )?)?
    .subcommand(of_file(
        alloc,
        "sheet",
        "the same as the printed sheet, in lines of 80 columns",
    )?)
}

// The commands that take values.
fn with_values<'a>(alloc: Global, all: Command<'a>) -> Result<Command<'a>, AllocError> {
    all.subcommand(of_file(
        alloc,
        "judge",
        "do the values keep all bounds, and is every constraint, or row, true of them?",
    )?)?
    .subcommand(of_file(
        alloc,
        "fill",
        "the values of a model's variables, then those of the auxiliaries",
    )?)
}

fn with_reasons<'a>(alloc: Global, all: Command<'a>) -> Result<Command<'a>, AllocError> {
    all.subcommand(of_file(
        alloc,
        "reason",
        "the first row that values of variables and auxiliaries fail, and the constraint behind it",
    )?)?
    .subcommand(of_file(
        alloc,
        "solutions",
        "every solution of a model of at most 8 variables and 65,536 value lists, one a line",
    )?)
}

fn with_words<'a>(alloc: Global, all: Command<'a>) -> Result<Command<'a>, AllocError> {
    all.subcommand(of_file(
        alloc,
        "bits",
        "the words of the quadratic form over bits of a row system, or of a model",
    )?)?
    .subcommand(of_file(alloc, "text", "the words of a FlatZinc text")?)
}

// The whole command line.
pub fn command<'a>(alloc: Global) -> Result<Command<'a>, AllocError> {
    let all = Command::new(alloc, "pearrummy")
        .version("1.15.1, 39 builtins")
        .about("FlatZinc models as linear rows, proved to keep every solution")
        .override_help(HELP);
    let all = with_files(alloc, with_kinds(alloc, with_forms(alloc, all)?)?)?;
    let all = with_rows(alloc, with_models(alloc, all)?)?;
    with_words(alloc, with_reasons(alloc, with_values(alloc, all)?)?)
}

// The command of a name.
fn which_of(name: &str) -> Option<Which> {
    match name {
        "check" => Some(Which::Check),
        "translate" => Some(Which::Translate),
        "rows" => Some(Which::Rows),
        "sheet" => Some(Which::Sheet),
        "judge" => Some(Which::Judge),
        "fill" => Some(Which::Fill),
        "reason" => Some(Which::Reason),
        "solutions" => Some(Which::Solutions),
        "bits" => Some(Which::Bits),
        "text" => Some(Which::Text),
        _ => None,
    }
}

// How many words an option has.
fn count_of(words: Option<&[&str]>) -> usize {
    match words {
        None => 0,
        Some(words) => words.len(),
    }
}

// The flags.
fn flags_of(given: &ArgMatches) -> Flags {
    Flags {
        text: given.get_flag("text"),
        hex: given.get_flag("hex"),
        bytes: given.get_flag("bytes"),
        model: given.get_flag("model"),
        rows: given.get_flag("rows"),
        out_bytes: given.get_flag("out-bytes"),
        json: given.get_flag("json"),
    }
}

// The number of a candidate, 0 where it is none.
fn candidate_of(word: Option<&str>) -> u32 {
    match word {
        Some("1") => 1,
        Some("2") => 2,
        _ => 0,
    }
}

// The first word of an option.
fn first_of<'a>(words: Option<&[&'a str]>) -> Option<&'a str> {
    match words {
        None => None,
        Some(words) => words.first().copied(),
    }
}

// What a command line that clap read asks, where it has a command.
pub fn asked_of<'m, 'a: 'm>(matches: &'m ArgMatches<'a>) -> Option<Asked<'m, 'a>> {
    let (name, given) = matches.subcommand()?;
    let which = which_of(name)?;
    let candidates = given.get_strs("candidate");
    let files = given.get_strs("values");
    let data = given.get_strs("data");
    let values = given.get_strs("value");
    let file = given.get_str("file");
    let candidate = candidate_of(first_of(candidates));
    let values_file = first_of(files);
    Some(Asked {
        which,
        file: file.unwrap_or("-"),
        flags: flags_of(given),
        times: Times {
            candidate: count_of(candidates),
            values: count_of(files),
            data: count_of(data),
        },
        named: Named {
            known_candidate: candidate != 0,
            file: file.is_some(),
            values: values.is_some(),
            same_input: file == Some("-") && values_file == Some("-"),
        },
        candidate,
        values_file,
        data: first_of(data),
        values,
    })
}
