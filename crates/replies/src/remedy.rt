// What people are told of a laying that fails: what is wrong, where, and what to do.
use laying::misfit::{Flaw, Misfit};
use std::fmt;

/// What is wrong with a laying, and what to do.
#[derive(Clone, Copy)]
pub struct Remedy(pub Misfit);

impl fmt::Display for Remedy {
    fn fmt<W: fmt::Write>(&self, f: &mut fmt::Formatter<W>) -> fmt::Result {
        let place = self.0.place;
        match self.0.cause {
            Flaw::Length => f.write_str(
                "there are not as many images as the first drawing has edges; give one for each of its edges",
            ),
            Flaw::Number => write!(
                f,
                "the image of edge {place} is 0 or beyond the edges of the second drawing; name one of them"
            ),
            Flaw::Twice => write!(
                f,
                "edge {place} has the image of an earlier edge; give it one of its own"
            ),
            Flaw::Missed => write!(
                f,
                "edge {place} of the second drawing is no image; lay a drawing with as many edges"
            ),
            Flaw::Next => write!(
                f,
                "the next edge of edge {place} does not go to the next edge of its image; go round both faces alike"
            ),
            Flaw::Opposite => write!(
                f,
                "the opposite of edge {place} does not go to the opposite of its image; cross both edges alike"
            ),
            Flaw::Label => write!(
                f,
                "edge {place} and its image are not alike; try another image of edge 1, or another kind"
            ),
        }
    }
}
