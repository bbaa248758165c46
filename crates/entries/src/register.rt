// The entries of a catalogue, in the order in which they came.
ghost use Rattle.std.specs.Prelude.{◌≡◌, ◌≤◌, length};
ghost use Rattle.entries.specs.Chains.{Chained};

use crate::record::Entry;

pub mod chaining;

/// The records of at most 64 entries. The next entry in a family is a later one.
// A rule of the project: a plain struct of the 64 records, whose type says the order of the chains; no ArrayVec and no Model.
#[derive(Clone, Copy)]
pub struct Register {
    all: [Entry; 64],
    count: usize,
    ghost whole: { length all ≡ 64 },
    ghost few: { count ≤ 64 },
    ghost chained: { Chained all },
}
