//! The words that people get back: the answers to lines, and what they can do.
#![tactic(auto)]

pub mod advice;
pub mod answer;
pub mod laid;
pub mod measured;
pub mod remedy;
