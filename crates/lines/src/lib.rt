//! The lines that a drafter writes.
#![tactic(auto)]

mod field;
pub mod kind;
pub mod line;
pub mod reading;
mod word;
