// The tokens of a FlatZinc text as MiniZinc writes it.
#![tactic(auto)]

mod bytes;
mod messages;
mod reading;

pub use messages::spelled;
pub use reading::next_statement;

// A token, by what it says; names, floats and texts in quotes by their bytes, with the quotes.
#[derive(Clone, Copy, Debug)]
pub enum Token<'a> {
    Name(&'a [u8]),
    Number(i64),
    Float(&'a [u8]),
    Text(&'a [u8]),
    // ..
    Dots,
    // ::
    Colons,
    // one of ( ) [ ] { } , : =
    Sign(u8),
}
