// The calls of the adviser's desk: one line of bytes read as a command, or as none.
#![tactic(auto)]

pub mod command;
mod literals;
mod numbers;
pub mod parse;
#[cfg(test)]
mod tests;
mod words;
