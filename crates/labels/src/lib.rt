// What a message says of a text: the line and the column of a byte, the token there, the names of its variables, and which token writes which word.
#![tactic(auto)]

pub mod named;
pub mod position;
pub mod written;
