// The opposite of each edge, by a table of the ordered pairs of points.
ghost use Rattle.std.specs.Prelude.{◌≡◌, ◌<◌, length, MatchOption, MatchResult};
ghost use Rattle.drawing.specs.declared.fault.Cause.TheVariants.{UnmatchedEdge};
ghost use Rattle.drawing.specs.Lowest.{RefusedAt};
ghost use Rattle.drawing.specs.Nets.{Matched};
ghost use Rattle.tables.specs.Pairs.{between, alone, Tallied, Faces};
ghost use Rattle.tables.specs.Stages.{Joined};

use crate::edges::Seams;
use arrayvec::ArrayVec;
use drawing::fault::{Cause, Fault};

/// How many points there are at the most.
const SIDE: usize = 160;

/// The entry of a pair that several edges have. One edge stands by its number, and 0 is none.
// Numbers, and no enum: tried, and with its four bytes an entry, 100 KB in all, the layer's checks of a small block took a third longer.
const SEVERAL: u16 = 481;

/// The edge that has its pair alone.
fn lone(entry: u16) -> Option<usize>
    ensures { result ≡ alone (between entry) }
{
    if entry == 0 || entry >= SEVERAL {
        None
    } else {
        Some(usize::from(entry) - 1)
    }
}

impl Seams<'_> {
    /// The opposite of the edge `e`, where it and its opposite are the only edges between their ends.
    fn opposite_of(&self, table: &[u16; 25600], e: usize) -> Option<usize>
        requires tallied { Tallied self.now.starts.now self.now.next.now (length self.now.starts.now) table.now }
        requires within { e < length self.now.starts.now }
        ensures { MatchOption result (Matched self.now.starts.now self.now.next.now e → ⊥) (Faces self.now.starts.now self.now.next.now e) }
    {
        let a = self.starts[e];
        let b = self.starts[self.next[e]];
        let there = table[a * SIDE + b];
        let back = table[b * SIDE + a];
        // the edge itself is to be alone there
        lone(there)?;
        let opposite = lone(back)?;
        if a == b { None } else { Some(opposite) }
    }

    /// The opposite of each edge. Refuses the lowest edge that has none, or more than one.
    pub(crate) fn match_edges(&self) -> Result<ArrayVec<usize, 480>, Fault>
        ensures { MatchResult result (λ opposite. Joined self.now.starts.now self.now.next.now opposite.items) (RefusedAt UnmatchedEdge (length self.now.starts.now) (λ e. Matched self.now.starts.now self.now.next.now e → ⊥)) }
    {
        // a table, and no map: a rule of the project is that the checks allocate nothing
        let mut table = [0u16; 25600];
        for (e, a) in self.starts.iter().enumerate() {
            let pair = a * SIDE + self.starts[self.next[e]];
            table[pair] = if table[pair] == 0 {
                (e + 1) as u16
            } else {
                SEVERAL
            };
        }
        let mut opposite = ArrayVec::new();
        // by index: an edge is asked for by its index, and pushed, since to collect into an `ArrayVec` asks for an allocator
        for edge in 0..self.starts.len() {
            let unmatched = Fault {
                cause: Cause::UnmatchedEdge,
                place: edge + 1,
            };
            opposite.push(self.opposite_of(&table, edge).ok_or(unmatched)?);
        }
        Ok(opposite)
    }
}
