//! The entry records of a catalogue.
#![tactic(auto)]

pub mod record;
pub mod register;
