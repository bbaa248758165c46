//! The raw tables of a drawing, what can be wrong with them, and what each of the twelve checks says.
#![tactic(auto)]

pub mod fault;
pub mod record;
pub mod step;
