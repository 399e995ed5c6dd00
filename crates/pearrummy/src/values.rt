// The values that a command line and a file of values give.
use answers::Answer;
use answers::usage::{told_file, told_usage, told_usage_of};
use commandline::Asked;
use givenvalues::{Given, Wrong};
use std::alloc::{AllocError, Global};

// What words give.
#[derive(Drop)]
pub enum Taken {
    Values(Vec<i32>),
    Not(Answer),
}

// What is wrong about a word, in words.
fn wrong_text(wrong: Wrong) -> &'static str {
    match wrong {
        Wrong::NoNames => "names of variables are known where the file is text or a MiniZinc model",
        Wrong::NoSuchName => "no variable has this name",
        Wrong::SecondValue => "a second value of this variable",
        Wrong::NoNumber => "no number of 32 bits",
        Wrong::Mixed => "values stand all by name or all in order",
        Wrong::Missing(_) => "no value is given of",
        Wrong::Memory => "out of memory",
    }
}

// The answer that a word gives no value.
fn told_word(alloc: Global, wrong: Wrong, word: &str) -> Result<Answer, AllocError> {
    if wrong == Wrong::Memory {
        return Err(AllocError);
    }
    told_usage_of(alloc, wrong_text(wrong), word)
}

// The words of a command line.
fn add_words(
    alloc: Global,
    given: &mut Given,
    names: Option<&[&str]>,
    words: Option<&[&str]>,
) -> Result<Option<Answer>, AllocError> {
    let Some(words) = words else {
        return Ok(None);
    };
    for word in words {
        if let Err(wrong) = given.add(names, word) {
            return Ok(Some(told_word(alloc, wrong, word)?));
        }
    }
    Ok(None)
}

// The words of a file, between blanks and line ends.
fn add_text(
    alloc: Global,
    given: &mut Given,
    names: Option<&[&str]>,
    text: &str,
) -> Result<Option<Answer>, AllocError> {
    for word in text.split([' ', '\n', '\r', '\t']) {
        if word.is_empty() {
            continue;
        }
        if let Err(wrong) = given.add(names, word) {
            return Ok(Some(told_word(alloc, wrong, word)?));
        }
    }
    Ok(None)
}

// The answer that some values are not given.
fn told_end(alloc: Global, wrong: Wrong, names: &[&str]) -> Result<Answer, AllocError> {
    match wrong {
        Wrong::Missing(k) => told_usage_of(
            alloc,
            wrong_text(wrong),
            names.get(k).copied().unwrap_or("?"),
        ),
        Wrong::Memory => Err(AllocError),
        _ => told_usage(alloc, wrong_text(wrong)),
    }
}

// The values of a command line, then those of a file.
pub fn values_of(
    alloc: Global,
    asked: &Asked,
    names: Option<&[&str]>,
    file: &[u8],
) -> Result<Taken, AllocError> {
    let name = asked.values_file.unwrap_or("-");
    if file.contains(&0) {
        return Ok(Taken::Not(told_usage_of(alloc, "a zero byte stands among the values", name)?));
    }
    let Ok(text) = std::str::from_utf8(file) else {
        return Ok(Taken::Not(told_file(alloc, name, "it is no UTF-8")?));
    };
    let known = names.unwrap_or(&[]);
    let mut given = Given::none(alloc, known.len())?;
    if let Some(answer) = add_words(alloc, &mut given, names, asked.values)? {
        return Ok(Taken::Not(answer));
    }
    if let Some(answer) = add_text(alloc, &mut given, names, text)? {
        return Ok(Taken::Not(answer));
    }
    match given.values(alloc) {
        Ok(values) => Ok(Taken::Values(values)),
        Err(wrong) => Ok(Taken::Not(told_end(alloc, wrong, known)?)),
    }
}
