// What a command takes, and which options go together.
#![tactic(auto)]

pub mod options;
pub mod which;
pub mod wrong;
