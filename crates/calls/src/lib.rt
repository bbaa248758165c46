//! What the calls of a catalogue answer, and what holds of every row of calls.
#![tactic(auto)]

pub mod law;
pub mod refusal;
