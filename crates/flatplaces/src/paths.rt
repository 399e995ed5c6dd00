// A path, as an annotation mzn_path has it: elements FILE|LINE|N|N|N|WHAT with semicolons between them.
ghost use Rattle.std.specs.Prelude.{◌≡◌, ◌<◌, false, IfOk, None};
ghost use Rattle.flatplaces.specs.Path.{begin, with_digit, after_bar, in_file, stepped, completed, unescaped, elements, part_of, contains_part, is_in_library, is_declared, is_usable, first_usable};

use std::alloc::{AllocError, Global};

// No file has a line of more digits.
const LINES: usize = 1_000_000_000;

// No system opens a file by a longer name.
const LONGEST_FILE: usize = 4096;

const LIBRARY: &[u8] = b"/share/minizinc/";

// What a byte of a path stands in: nothing yet, a file or the numbers behind it, what stands at the place.
#[derive(Clone, Copy, Debug, PartialEq, Eq)]
pub enum Part {
    Start,
    File,
    Rest,
}

// How far a path is read: where the element's file begins, the bar behind it, how many bars with numbers between them there are so far, and the first number.
#[derive(Clone, Copy, Debug)]
pub struct Progress {
    pub part: Part,
    pub file: usize,
    pub bar: usize,
    pub bars: u8,
    pub has_digit: bool,
    pub line: usize,
}

// An element: where its file begins and ends, its line, where what stands there begins.
#[derive(Clone, Copy, Debug)]
pub struct Element {
    pub file: usize,
    pub bar: usize,
    pub line: usize,
    pub rest: usize,
}

impl Progress {
    // Before the first byte.
    pub fn begin() -> Progress
        ensures { result ≡ begin }
    {
        Progress {
            part: Part::Start,
            file: 0,
            bar: 0,
            bars: 0,
            has_digit: false,
            line: 0,
        }
    }

    // After a bar at a place.
    fn after_bar(self, at: usize) -> Progress
        ensures { result ≡ after_bar self at }
    {
        if !self.has_digit {
            return Progress {
                bar: at,
                bars: 1,
                has_digit: false,
                line: 0,
                ..self
            };
        }
        if 4 <= self.bars {
            return Progress {
                part: Part::Rest,
                ..self
            };
        }
        Progress {
            bars: self.bars + 1,
            has_digit: false,
            ..self
        }
    }

    // After a byte of a file or the numbers behind it.
    fn in_file(self, at: usize, byte: u8) -> Progress
        ensures { result ≡ in_file self at byte }
    {
        if byte == b'|' {
            return self.after_bar(at);
        }
        if 0 < self.bars && byte.is_ascii_digit() {
            let line = if self.bars == 1 {
                with_digit(self.line, byte - b'0')
            } else {
                self.line
            };
            return Progress {
                has_digit: true,
                line,
                ..self
            };
        }
        Progress {
            bars: 0,
            has_digit: false,
            line: 0,
            ..self
        }
    }

    // After the byte at a place.
    #[tactic(auto, unfolding(crate::specs::Path::stepped))]
    fn stepped(self, at: usize, byte: u8) -> Progress
        ensures { result ≡ stepped self at byte }
    {
        match self.part {
            Part::Start => {
                if byte == b';' {
                    return self;
                }
                let started = Progress {
                    part: Part::File,
                    file: at,
                    ..Progress::begin()
                };
                started.in_file(at, byte)
            }
            Part::File => self.in_file(at, byte),
            Part::Rest => {
                if byte == b';' {
                    return Progress::begin();
                }
                self
            }
        }
    }

    // The element whose head the byte at a place ends.
    #[tactic(auto, unfolding(crate::specs::Path::completed))]
    fn completed(self, next: Progress, at: usize) -> Option<Element>
        requires { at < 18446744073709551615 }
        ensures { result ≡ completed self next at }
    {
        match (self.part, next.part) {
            (Part::File, Part::Rest) => Some(Element {
                file: self.file,
                bar: self.bar,
                line: self.line,
                rest: at + 1,
            }),
            _ => None,
        }
    }
}

// A line's number with a digit more.
fn with_digit(n: usize, digit: u8) -> usize
    ensures { result ≡ with_digit n digit }
{
    if n < 100_000_000 {
        n * 10 + digit as usize
    } else {
        LINES
    }
}

// A text in quotes without them and without what escapes.
pub fn unescaped(alloc: Global, text: &[u8]) -> Result<Vec<u8>, AllocError>
    ensures { IfOk result (λ v. v.items ≡ unescaped false text.now) }
{
    let mut path = Vec::new(alloc);
    let mut escaped = false;
    for byte in text {
        if escaped {
            path.push(*byte)?;
            escaped = false;
        } else if *byte == b'\\' {
            escaped = true;
        } else if *byte != b'"' {
            path.push(*byte)?;
        }
    }
    Ok(path)
}

// The elements of a path.
pub fn elements(alloc: Global, path: &[u8]) -> Result<Vec<Element>, AllocError>
    ensures { IfOk result (λ v. v.items ≡ elements path.now) }
{
    let mut found = Vec::new(alloc);
    let mut progress = Progress::begin();
    for (at, byte) in path.iter().enumerate() {
        let next = progress.stepped(at, *byte);
        if let Some(element) = progress.completed(next, at) {
            found.push(element)?;
        }
        progress = next;
    }
    Ok(found)
}

// The bytes from a place to another, those that are there.
pub fn part_of(bytes: &[u8], from: usize, to: usize) -> &[u8]
    ensures { result.now ≡ part_of bytes.now from to }
{
    let end = to.min(bytes.len());
    let begin = from.min(end);
    &bytes[begin..end]
}

// Whether a part stands somewhere in a text.
fn contains_part(text: &[u8], part: &[u8]) -> bool
    ensures { result ≡ contains_part text.now part.now }
{
    for at in 0..text.len() {
        if text[at..].starts_with(part) {
            return true;
        }
    }
    part.is_empty()
}

// Whether a file is of MiniZinc's library, or of the library's folder that is given.
fn is_in_library(folder: &[u8], file: &[u8]) -> bool
    ensures { result ≡ is_in_library folder.now file.now }
{
    contains_part(file, LIBRARY) || !folder.is_empty() && contains_part(file, folder)
}

// Whether an element is a declaration.
fn is_declared(path: &[u8], element: &Element) -> bool
    ensures { result ≡ is_declared path.now element.now }
{
    let rest = part_of(path, element.rest, path.len());
    rest.starts_with(b"id|") || rest.starts_with(b"vd")
}

// Whether an element says a place.
fn is_usable(folder: &[u8], path: &[u8], element: &Element) -> bool
    ensures { result ≡ is_usable folder.now path.now element.now }
{
    let file = part_of(path, element.file, element.bar);
    0 < file.len()
        && file.len() <= LONGEST_FILE
        && 0 < element.line
        && element.line < LINES
        && !is_in_library(folder, file)
}

// The first element that says a place and is no declaration, else the first declaration.
pub fn first_usable(folder: &[u8], path: &[u8], elements: &[Element]) -> Option<Element>
    ensures { result ≡ first_usable folder.now path.now None elements.now }
{
    let mut declared = None;
    for element in elements {
        if !is_usable(folder, path, element) {
            continue;
        }
        if !is_declared(path, element) {
            return Some(*element);
        }
        if declared.is_none() {
            declared = Some(*element);
        }
    }
    declared
}
