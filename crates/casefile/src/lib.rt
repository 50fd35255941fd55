// The case file: read, told as a case, written.
#![tactic(auto)]

pub mod again;
pub mod fault;
pub mod field;
pub mod file;
pub mod index;
pub mod open;
pub mod reader;
pub mod writer;
