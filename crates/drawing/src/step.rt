// The two steps from an edge.

/// A step from an edge to another.
// Data, and no closure: words are lists of steps, in the definitions too.
#[derive(Clone, Copy, PartialEq, Eq, Debug)]
pub enum Step {
    /// along the face, to the next edge
    Along,
    /// across the edge, to the opposite
    Across,
}
