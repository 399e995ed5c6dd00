// Models: the codes of builtins, the shapes of their arguments, a constraint, and what a reader of a model waits for.
#![tactic(auto)]

pub mod code;
pub mod constraint;
pub mod shape;

// What is due at the next word of a model.
// Only definitions build it, of the words' own numbers: so its parts are numbers, and not kinds, shapes and codes.
#[derive(Clone, Copy, Debug, PartialEq, Eq)]
pub enum Due {
    // a variable, a constraint or the end
    Start,
    // the upper bound that belongs to this word, a lower bound
    Upper(u32),
    // so many numbers, then so many variables of a type, then the arguments of a code from the k-th on
    Arguments {
        numbers: usize,
        variables: usize,
        wanted: u32,
        code: usize,
        k: usize,
    },
    // nothing: the end word was read
    Ended,
}
