//! Where a new block belongs among the entries of a catalogue: its family, and the parts of its edges.
#![tactic(auto)]

pub mod family;
pub mod newcomer;
pub mod partaking;
pub mod span;
