// A place as it is shown: in one line, its file as seen from a folder where that is shorter. Which folder that is is tested, not promised.
ghost use Rattle.std.specs.Prelude.{◌≡◌, ◌≤◌, All, IfOk};

use crate::paths::part_of;
use crate::places::Place;
use std::alloc::{AllocError, Global};

// Where the file's last folder that is one of the base's ends, in both.
fn shared_end(base: &[u8], file: &[u8]) -> usize {
    let mut end = 0;
    for at in 0..base.len().min(file.len()) {
        if base[at] != file[at] {
            break;
        }
        if base[at] == b'/' {
            end = at + 1;
        }
    }
    end
}

// A file as seen from a base, a folder with its last slash.
fn relative(alloc: Global, base: &[u8], file: &[u8]) -> Result<Vec<u8>, AllocError>
    ensures { All (λ b. 32 ≤ b) file.now → IfOk result (λ v. All (λ b. 32 ≤ b) v.items) }
{
    let end = shared_end(base, file);
    let mut out = Vec::new(alloc);
    for byte in part_of(base, end, base.len()) {
        if *byte == b'/' {
            out.extend_from_slice(b"../")?;
        }
    }
    out.extend_from_slice(part_of(file, end, file.len()))?;
    Ok(out)
}

// A folder with its last slash.
fn with_slash(alloc: Global, folder: &[u8]) -> Result<Vec<u8>, AllocError> {
    let mut base = folder.to_vec(alloc)?;
    if !folder.ends_with(b"/") {
        base.push(b'/')?;
    }
    Ok(base)
}

// What stands for the bytes that do not print, as the ends of lines.
fn printed(alloc: Global, file: &[u8]) -> Result<Vec<u8>, AllocError>
    ensures { IfOk result (λ v. All (λ b. 32 ≤ b) v.items) }
{
    let mut out = Vec::new(alloc);
    for byte in file {
        out.push(if *byte < b' ' || *byte == 127 {
            b'?'
        } else {
            *byte
        })?;
    }
    Ok(out)
}

// A place as it is shown from a folder.
pub fn shown(alloc: Global, folder: &[u8], place: &Place) -> Result<Place, AllocError>
    ensures line { IfOk result (λ p. p.line ≡ place.now.line) }
    ensures prints { IfOk result (λ p. All (λ b. 32 ≤ b) p.file.items) }
{
    let mut file = printed(alloc, &place.file)?;
    if folder.starts_with(b"/") && file.starts_with(b"/") {
        let short = relative(alloc, &with_slash(alloc, folder)?, &file)?;
        if short.len() < file.len() {
            file = short;
        }
    }
    Ok(Place {
        file,
        line: place.line,
    })
}
