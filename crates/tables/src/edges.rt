// The edges of a drawing, and the checks of how they hang together.
ghost use Rattle.std.specs.Prelude.{◌≤◌, length};
ghost use Rattle.std.specs.Result.{MatchResult};
ghost use Rattle.drawing.specs.Nets.{Mesh};
ghost use Rattle.tables.specs.Bare.{bare};
ghost use Rattle.tables.specs.Stages.{Seamed, Closed, EdgesRefused};

use arrayvec::ArrayVec;
use drawing::fault::Fault;

/// The edges as the chains give them: the point at which each starts, and its next edge.
#[derive(Clone, Copy)]
pub(crate) struct Seams<'a> {
    /// how many points there are
    pub(crate) points: usize,
    pub(crate) starts: &'a [usize],
    pub(crate) next: &'a [usize],
    ghost seamed: { Seamed points starts.now next.now },
}

/// The edges, each with its opposite too.
#[derive(Clone, Copy)]
pub(crate) struct Edges<'a> {
    /// how many points there are
    pub(crate) points: usize,
    pub(crate) starts: &'a [usize],
    pub(crate) next: &'a [usize],
    pub(crate) opposite: &'a [usize],
    ghost points_to: { points ≤ 160 },
    ghost some: { 1 ≤ length starts.now },
    ghost few: { length starts.now ≤ 480 },
    ghost mesh: { Mesh points (bare starts.now next.now opposite.now) },
}

impl Seams<'_> {
    /// The opposite of each edge. Refuses an edge without one, then a point about which the edges form more than one
    /// ring, then an edge that is not reached from edge 1.
    pub(crate) fn join(&self) -> Result<ArrayVec<usize, 480>, Fault>
        ensures { MatchResult result (λ opposite. Closed self.now.points self.now.starts.now self.now.next.now opposite.items) (EdgesRefused self.now.points self.now.starts.now self.now.next.now) }
    {
        let opposite = self.match_edges()?;
        let edges = Edges {
            points: self.points,
            starts: self.starts,
            next: self.next,
            opposite: opposite.as_slice(),
        };
        edges.whole_points()?;
        edges.all_reached()?;
        Ok(opposite)
    }
}
