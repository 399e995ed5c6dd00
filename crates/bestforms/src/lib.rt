// The form whose least bits are a best solution of a row system: specs/ defines it and states what it says, proofs/ proves that.
#![tactic(auto)]

// Whether a variable's least or its greatest value is the best.
#[derive(Clone, Copy, Debug, PartialEq, Eq)]
pub enum Direction {
    Least,
    Greatest,
}
