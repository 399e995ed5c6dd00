// pearrummy: the calls from a shell. It reads the command line and files, and prints what `answers` says of what the calls answer; no promise is made
// of what the system gives and takes.
#![tactic(auto)]

mod asking;
mod calls;
mod files;
mod places;
mod values;

use answers::usage::{told_usage, told_usage_of};
use answers::{Answer, Style};
use commandline::{Asked, HELP, asked_of, command};
use requests::options::{Flags, wrong_usage};
use std::alloc::{AllocError, Global};
use std::io::Write;
use std::process::ExitCode;
use std::{env, io};

// wrong usage, a file that cannot be read, or an answer that cannot be written
const USAGE: u8 = 64;

// How an answer is written.
fn style_of(flags: &Flags) -> Style {
    if flags.json { Style::Json } else { Style::Text }
}

// Writes an answer; the exit status.
fn say(rt: &HostRuntime, answer: &Answer) -> io::Result<u8> {
    rt.stdout().write_all(&answer.out)?;
    rt.stderr().write_all(&answer.err)?;
    Ok(answer.status)
}

// The answer to options that do not go together.
fn told_wrong(alloc: Global, asked: &Asked) -> Result<Option<Answer>, AllocError> {
    let Some(wrong) = wrong_usage(asked.which, &asked.flags, &asked.times, &asked.named) else {
        return Ok(None);
    };
    if wrong.names_command() {
        return Ok(Some(told_usage_of(alloc, wrong.text(), asked.which.name())?));
    }
    Ok(Some(told_usage(alloc, wrong.text())?))
}

// Answers what is asked.
fn run_on(rt: &HostRuntime, asked: &Asked) -> io::Result<u8> {
    let alloc = rt.alloc();
    if let Some(answer) = told_wrong(alloc, asked)? {
        return say(rt, &answer);
    }
    let answer = asking::answer(rt, asked, style_of(&asked.flags))?;
    say(rt, &answer)
}

// Reads the command line.
fn run(rt: &HostRuntime) -> io::Result<u8> {
    let words: Vec<String> = env::args(rt)?.collect(rt.alloc())?;
    if words.len() < 2 {
        rt.stderr().write_all(HELP.as_bytes())?;
        return Ok(USAGE);
    }
    let matches = match command(rt.alloc())?.try_get_matches_from(words.as_slice()) {
        Ok(matches) => matches,
        Err(error) => {
            error.print(rt)?;
            return Ok(if error.use_stderr() { USAGE } else { 0 });
        }
    };
    match asked_of(&matches) {
        Some(asked) => run_on(rt, &asked),
        None => {
            rt.stderr().write_all(HELP.as_bytes())?;
            Ok(USAGE)
        }
    }
}

fn main(rt: HostRuntime) -> ExitCode {
    match run(&rt) {
        Ok(status) => ExitCode::from(status),
        Err(_) => {
            let _ = rt
                .stderr()
                .write_all(b"pearrummy: the answer cannot be written\n");
            ExitCode::from(USAGE)
        }
    }
}
