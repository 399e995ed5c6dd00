// What the command prints of an answer: as text or as JSON, to which stream, and its exit status.
#![tactic(auto)]

ghost use Rattle.std.specs.Prelude.{◌≡◌, ◌++◌, OnOk};
ghost use Rattle.answers.specs.Said.{Says, printed_said, complained_said};

pub mod counts;
pub mod escapes;
pub mod faults;
pub mod judgements;
pub mod lists;
pub mod named;
pub mod refusals;
pub mod usage;

use std::alloc::{AllocError, Global};

// How an answer is written.
#[derive(Clone, Copy, Debug, PartialEq, Eq)]
pub enum Style {
    Text,
    Json,
}

// What goes to standard output and to standard error, and the exit status.
#[derive(Debug, Drop)]
pub struct Answer {
    pub out: Vec<u8>,
    pub err: Vec<u8>,
    pub status: u8,
}

// Bytes after others.
pub fn put(out: &mut Vec<u8>, text: &[u8]) -> Result<(), AllocError>
    ensures { OnOk result (out.new.items ≡ out.old.items ++ text.now) }
{
    out.extend_from_slice(text)?;
    Ok(())
}

// Bytes on standard output, with a status.
pub fn printed(alloc: Global, out: Vec<u8>, status: u8) -> Answer
    ensures { Says (printed_said out.items status) result }
{
    Answer {
        out,
        err: Vec::new(alloc),
        status,
    }
}

// Bytes on standard error, with a status.
fn complained(alloc: Global, err: Vec<u8>, status: u8) -> Answer
    ensures { Says (complained_said err.items status) result }
{
    Answer {
        out: Vec::new(alloc),
        err,
        status,
    }
}
