// What a judge says of values where it accepts the words and their number.

#[derive(Clone, Copy, Debug, PartialEq, Eq)]
pub enum Verdict {
    // the values keep every bound, and every constraint or row is true of them
    Holds,
    // the first variable out of bounds, counted from 0
    OutOfBounds(usize),
    // the first false constraint or row, counted from 0
    False(usize),
}
