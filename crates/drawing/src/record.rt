// The records of the tables. A table is numbered from 1, and the number 0 names no record: a rule of the project, whose drafters write these numbers.

/// A corner of a face, which is also the directed edge from its point to that of the next corner.
#[derive(Clone, Copy)]
pub struct Corner {
    /// the number of its point
    pub point: usize,
    pub mark: u8,
    /// the number of the next corner of the chain, or 0 at the chain's end
    pub next: usize,
}

/// A face.
#[derive(Clone, Copy)]
pub struct Face {
    /// the number of its first corner
    pub first: usize,
}
