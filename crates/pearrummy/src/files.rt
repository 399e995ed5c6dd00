// Files: a file or standard input, whole, or the answer that it cannot be read.
use answers::Answer;
use answers::usage::told_file;
use reading::read_bounded;
use std::alloc::{AllocError, Global};
use std::fs::File;
use std::io;
use std::io::ErrorKind;

// What a file gives.
#[derive(Drop)]
pub enum Read {
    Bytes(Vec<u8>),
    Not(Answer),
}

// Why the system opens no file.
fn why(kind: ErrorKind) -> &'static str {
    match kind {
        ErrorKind::NotFound => "No such file or directory",
        ErrorKind::PermissionDenied => "Permission denied",
        _ => "it cannot be opened",
    }
}

fn not_read(alloc: Global, name: &str, why: &str) -> Result<Read, AllocError> {
    Ok(Read::Not(told_file(alloc, name, why)?))
}

// What was read, or why not.
fn taken(alloc: Global, name: &str, got: io::Result<Option<Vec<u8>>>) -> Result<Read, AllocError> {
    match got {
        Ok(Some(bytes)) => Ok(Read::Bytes(bytes)),
        Ok(None) => not_read(alloc, name, "it has more than 64 MiB"),
        Err(error) => {
            if error.kind() == ErrorKind::OutOfMemory {
                return Err(AllocError);
            }
            not_read(alloc, name, "it cannot be read")
        }
    }
}

// All of a file, `-` for standard input.
pub fn read_file(rt: &HostRuntime, name: &str) -> Result<Read, AllocError> {
    let alloc = rt.alloc();
    if name == "-" {
        return taken(alloc, name, read_bounded(alloc, rt.stdin()));
    }
    match File::open(rt, name) {
        Ok(file) => taken(alloc, name, read_bounded(alloc, file)),
        Err(error) => not_read(alloc, name, why(error.kind())),
    }
}
