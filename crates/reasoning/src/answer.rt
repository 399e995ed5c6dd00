// What is answered of the values of a model that passes the check.

// The reason that is named.
#[derive(Clone, Copy, Debug, PartialEq, Eq)]
pub enum Reason {
    OutOfBounds(usize),
    Nothing,
    // the first failing row, the constraint whose block holds it, whether that builtin is true of the source values
    Because {
        row: usize,
        constraint: usize,
        holds: bool,
    },
}
