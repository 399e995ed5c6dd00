// What the calls answer, as a line prints it.
use cases::lent::{Elements, first_marked, front};
use checking::Counts;
use filling::Filling;
use reasoning::answer::Reason;
use std::fmt;
use valuebits::Encoded;
use words::answer::Verdict;
use words::fault::Refusal;

// An answer; of a call that wrote to a list, with what it wrote. A refusal is a case and no Err: `Display`, which prints an answer, is of a type of this
// crate, which a Result is not.
#[derive(Clone, Copy)]
pub enum Answer<'a> {
    Refused(Refusal),
    // what check counts
    Counts(Counts),
    // what a judge or fill says of values
    Holds,
    OutOfBounds(usize),
    False(usize),
    // words, bytes and values
    Words(&'a [u32]),
    Bytes(&'a [u8]),
    Filled(&'a [i32]),
    // the values that bits read as, their energy, the bits of values
    Values(&'a [i32]),
    Energy(i64),
    Bits(&'a [u8]),
    // how many solutions, and their values
    Solutions(usize, &'a [i32]),
    // reason has nothing to say; the first failing row, the constraint whose block holds it, whether the auxiliaries fail it and not the builtin
    NoReason,
    Reason {
        row: usize,
        constraint: usize,
        auxiliaries: bool,
    },
}

impl Answer<'_> {
    // How many elements of the list were written.
    pub fn written(&self) -> usize {
        match self {
            Answer::Words(words) => words.len(),
            Answer::Bytes(bytes) => bytes.len(),
            Answer::Filled(values) => values.len(),
            Answer::Values(values) => values.len(),
            Answer::Bits(bits) => bits.len(),
            Answer::Solutions(_, values) => values.len(),
            _ => 0,
        }
    }
}

// Bytes as numbers, a blank before each.
#[derive(Drop)]
struct Digits<'a>(&'a [u8]);

impl fmt::Display for Digits<'_> {
    fn fmt<W: fmt::Write>(&self, f: &mut fmt::Formatter<W>) -> fmt::Result {
        for &x in self.0 {
            write!(f, " {x}")?;
        }
        Ok(())
    }
}

impl fmt::Display for Answer<'_> {
    fn fmt<W: fmt::Write>(&self, f: &mut fmt::Formatter<W>) -> fmt::Result {
        match *self {
            Answer::Refused(r) => write!(f, "refused {} {}", r.fault.number(), r.place),
            Answer::Counts(
                Counts {
                    variables,
                    constraints,
                    auxiliaries,
                    rows,
                    words,
                },
            ) => write!(
                f,
                "counts {variables} {constraints} {auxiliaries} {rows} {words}"
            ),
            Answer::Holds => write!(f, "holds"),
            Answer::OutOfBounds(i) => write!(f, "bound {i}"),
            Answer::False(i) => write!(f, "false {i}"),
            Answer::Words(words) => write!(f, "words{}", Elements(words)),
            Answer::Bytes(bytes) if bytes.is_empty() => write!(f, "bytes"),
            Answer::Bytes(bytes) => write!(f, "bytes {}", Elements(bytes)),
            Answer::Filled(values) => write!(f, "filled{}", Elements(values)),
            Answer::Values(values) => write!(f, "values{}", Elements(values)),
            Answer::Energy(e) => write!(f, "energy {e}"),
            Answer::Bits(bits) => write!(f, "bits{}", Digits(bits)),
            Answer::Solutions(n, values) => write!(f, "solutions {n}{}", Elements(values)),
            Answer::NoReason => write!(f, "none"),
            Answer::Reason {
                row,
                constraint,
                auxiliaries: true,
            } => write!(f, "row {row} {constraint} auxiliaries"),
            Answer::Reason {
                row,
                constraint,
                ..
            } => write!(f, "row {row} {constraint} builtin"),
        }
    }
}

impl<'a> From<Result<Verdict, Refusal>> for Answer<'a> {
    fn from(answer: Result<Verdict, Refusal>) -> Answer<'a> {
        match answer {
            Ok(Verdict::Holds) => Answer::Holds,
            Ok(Verdict::OutOfBounds(i)) => Answer::OutOfBounds(i),
            Ok(Verdict::False(i)) => Answer::False(i),
            Err(r) => Answer::Refused(r),
        }
    }
}

impl<'a> From<Result<Counts, Refusal>> for Answer<'a> {
    fn from(answer: Result<Counts, Refusal>) -> Answer<'a> {
        match answer {
            Ok(counts) => Answer::Counts(counts),
            Err(r) => Answer::Refused(r),
        }
    }
}

impl<'a> From<Result<Reason, Refusal>> for Answer<'a> {
    fn from(answer: Result<Reason, Refusal>) -> Answer<'a> {
        match answer {
            Ok(Reason::OutOfBounds(i)) => Answer::OutOfBounds(i),
            Ok(Reason::Nothing) => Answer::NoReason,
            Ok(
                Reason::Because {
                    row,
                    constraint,
                    holds,
                },
            ) => Answer::Reason {
                row,
                constraint,
                auxiliaries: holds,
            },
            Err(r) => Answer::Refused(r),
        }
    }
}

impl<'a> From<Result<i64, Refusal>> for Answer<'a> {
    fn from(answer: Result<i64, Refusal>) -> Answer<'a> {
        match answer {
            Ok(e) => Answer::Energy(e),
            Err(r) => Answer::Refused(r),
        }
    }
}

// What bit_values answers: a type of its own, since that of solutions is the same.
#[derive(Clone, Copy, Debug, PartialEq, Eq)]
pub struct BitValues(pub Result<usize, Refusal>);

// What a call says that was lent the front of a list.
pub trait Wrote<T> {
    // Its answer, with what it wrote to the list.
    fn to_list(self, list: &[T]) -> Answer<'_>;
}

// Translate, text and bits.
impl Wrote<u32> for Result<usize, Refusal> {
    fn to_list(self, list: &[u32]) -> Answer<'_> {
        match self {
            Ok(n) => Answer::Words(front(list, n)),
            Err(r) => Answer::Refused(r),
        }
    }
}

// Sheet.
impl Wrote<u8> for Result<usize, Refusal> {
    fn to_list(self, list: &[u8]) -> Answer<'_> {
        match self {
            Ok(n) => Answer::Bytes(front(list, n)),
            Err(r) => Answer::Refused(r),
        }
    }
}

impl Wrote<i32> for Result<Filling, Refusal> {
    fn to_list(self, list: &[i32]) -> Answer<'_> {
        match self {
            Ok(Filling::Values(n)) => Answer::Filled(front(list, n)),
            Ok(Filling::OutOfBounds(i)) => Answer::OutOfBounds(i),
            Ok(Filling::False(i)) => Answer::False(i),
            Err(r) => Answer::Refused(r),
        }
    }
}

// Solutions. What was written ends where the first mark stands, which is no value of a model.
impl Wrote<i32> for Result<usize, Refusal> {
    fn to_list(self, list: &[i32]) -> Answer<'_> {
        match self {
            Ok(n) => {
                let end = first_marked(list).unwrap_or(list.len());
                Answer::Solutions(n, front(list, end))
            }
            Err(r) => Answer::Refused(r),
        }
    }
}

impl Wrote<i32> for BitValues {
    fn to_list(self, list: &[i32]) -> Answer<'_> {
        match self.0 {
            Ok(n) => Answer::Values(front(list, n)),
            Err(r) => Answer::Refused(r),
        }
    }
}

impl Wrote<u8> for Result<Encoded, Refusal> {
    fn to_list(self, list: &[u8]) -> Answer<'_> {
        match self {
            Ok(Encoded::Bits(n)) => Answer::Bits(front(list, n)),
            Ok(Encoded::OutOfBounds(i)) => Answer::OutOfBounds(i),
            Ok(Encoded::False(i)) => Answer::False(i),
            Err(r) => Answer::Refused(r),
        }
    }
}
