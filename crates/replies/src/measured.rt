// The answer to a label line, as it is written.
ghost use Rattle.std.specs.Prelude.{Some};
ghost use Rattle.replies.specs.Replies.{label_written};

use label::measures::Measures;
use std::fmt;

/// Why an edge is not measured.
#[derive(Clone, Copy)]
pub enum Unmeasured {
    /// no drawing was sound
    NoBlock,
    /// the last sound drawing has no edge of this number, but so many edges
    NoEdge { edges: usize },
}

/// What the edge of this number of the last sound drawing measures.
#[derive(Clone, Copy)]
pub struct LabelAnswer {
    pub edge: usize,
    pub measures: Result<Measures, Unmeasured>,
}

impl fmt::Display for LabelAnswer {
    ghost output = { λ a. Some (label_written a) };

    fn fmt<W: fmt::Write>(&self, f: &mut fmt::Formatter<W>) -> fmt::Result {
        let edge = self.edge;
        match self.measures {
            Ok(measures) => write!(f, "label 0 {edge} {measures}"),
            Err(Unmeasured::NoEdge { .. }) => write!(f, "label 14 {edge}"),
            Err(Unmeasured::NoBlock) => f.write_str("label 13 1"),
        }
    }
}
