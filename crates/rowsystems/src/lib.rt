// Row systems: what a reader of a row system waits for.
#![tactic(auto)]

// What is due at the next word of a row system.
// Only definitions build it, of the words' own numbers: so a word in it is a number, and no Word.
#[derive(Clone, Copy, Debug, PartialEq, Eq)]
pub enum Due {
    // a source variable, or what may follow these
    Source,
    // the upper bound that belongs to this word, a source variable's lower bound
    SourceUpper(u32),
    // an auxiliary, a row, a product or the end
    Item,
    // the upper bound that belongs to this word, an auxiliary's lower bound
    AuxiliaryUpper(u32),
    // the variable of a term, of which so many are left; the constant, where none is
    Terms(usize),
    // the coefficient of a term, after which so many terms are left
    Coefficient(usize),
    // a product's result, and its factors
    Result,
    FirstFactor,
    SecondFactor,
    // nothing: the end word was read
    Ended,
}
