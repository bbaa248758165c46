// The lent edge table.
ghost use Rattle.std.specs.Prelude.{◌≡◌, ◌+◌, ◌<◌, ◌≤◌, length, slice_set};
ghost use Rattle.drawing.specs.Nets.{edges};
ghost use Rattle.stored.specs.Records.{Stored, Parted};

use crate::record::{Edge, record_of};
use block::Block;
use label::kind::Kind;

/// An edge table under a kind.
#[derive(Drop)]
pub struct Table<'a, K: Kind> {
    edges: &'a mut [Edge<K::Label>],
}

impl<'a, K: Kind> Table<'a, K> {
    /// The records that are lent.
    // `place` in each clause: what is lent stays the same memory, which is of the loan, and no fact of the records.
    pub fn over(edges: &'a mut [Edge<K::Label>]) -> Self
        ensures same { result.edges.now ≡ edges.old }
        ensures place { result.edges.ghost_name ≡ edges.entry.ghost_name }
    {
        Table { edges }
    }

    /// The records.
    pub fn records(&self) -> &[Edge<K::Label>]
        ensures { result.now ≡ self.now.edges.now }
    {
        &*self.edges
    }

    fn put(&mut self, index: usize, edge: Edge<K::Label>)
        requires { index < length self.old.edges.now }
        ensures put { self.new.edges.now ≡ slice_set self.old.edges.now index edge }
        ensures place { self.new.edges.ghost_name ≡ self.old.edges.ghost_name }
    {
        self.edges[index] = edge;
    }

    /// Writes the edges of a block, from the index `start` on. For the crates above: there is to be room.
    pub fn store(&mut self, start: usize, block: &Block)
        requires { start + edges block.now ≤ length self.old.edges.now }
        ensures stored { Stored K.Kind.label block.now start self.old.edges.now self.new.edges.now }
        ensures place { self.new.edges.ghost_name ≡ self.old.edges.ghost_name }
    {
        // by index: a block is asked for an edge by its index, and has no list of edges to go through
        for e in 0..block.edge_count() {
            self.put(start + e, record_of::<K>(block, e));
        }
    }

    /// Writes the parts of as many edges as are given, from the index `start` on. For the crates above: there are to be so many.
    pub fn set_parts(&mut self, start: usize, parts: &[usize])
        requires { start + length parts.now ≤ length self.old.edges.now }
        ensures parted { Parted start parts.now self.old.edges.now self.new.edges.now }
        ensures place { self.new.edges.ghost_name ≡ self.old.edges.ghost_name }
    {
        for (e, part) in parts.iter().enumerate() {
            self.edges[start + e].part = *part;
        }
    }
}
