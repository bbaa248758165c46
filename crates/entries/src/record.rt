// One entry of a catalogue.

/// An entered block: where its edges stand in the edge table, and its family. Entries are told by their numbers, from 1.
#[derive(Clone, Copy, Default)]
pub struct Entry {
    /// the index in the edge table of its first edge
    pub start: usize,
    /// how many edges it has
    pub edges: usize,
    /// the first entry of its family
    pub first: usize,
    /// the next entry of its family, or 0
    // A rule of the project: zero, or larger than the entry's own number; so a catalogue answers it.
    pub next: usize,
}
