//! The edge table of a catalogue: its records, and how blocks are written into it.
#![tactic(auto)]

pub mod blanking;
pub mod record;
pub mod table;
