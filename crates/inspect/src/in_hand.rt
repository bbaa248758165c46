// The tables in hand.
ghost use Rattle.std.specs.Prelude.{◌≡◌, ◌&&◌, [], length, ◌==◌};
ghost use Rattle.drawing.specs.Verdicts.{tables};
ghost use Rattle.inspect.specs.Judged.{Judged};

use block::{Block, check};
use drawing::fault::Fault;
use drawing::record::{Corner, Face};
use solid::Point;
use std::alloc::Global;
use std::marker::Model;

/// The records of a drawing that no check has judged yet.
#[derive(Drop)]
pub struct Tables {
    pub points: Vec<Point>,
    pub corners: Vec<Corner>,
    pub faces: Vec<Face>,
}

// A contract sees them as the three tables of a drawing.
impl Model for Tables {
    ghost use Rattle.drawing.specs.Verdicts as verdict;

    ghost Value = { verdict.Tables };

    ghost view = { λ t. verdict.tables t.points.items t.corners.items t.faces.items };
}

impl Tables {
    /// No records.
    pub(crate) fn new(heap: Global) -> Self
        ensures { result ≡ tables [] [] [] }
    {
        Tables {
            points: Vec::new(heap),
            corners: Vec::new(heap),
            faces: Vec::new(heap),
        }
    }

    /// Lets all records go.
    pub(crate) fn clear(&mut self)
        ensures { self.new ≡ tables [] [] [] }
    {
        self.points.clear();
        self.corners.clear();
        self.faces.clear();
    }

    /// Whether there is no record.
    pub(crate) fn is_empty(&self) -> bool
        ensures { result ≡ (length self.now.points == 0) && (length self.now.corners == 0 && length self.now.faces == 0) }
    {
        self.points.is_empty() && self.corners.is_empty() && self.faces.is_empty()
    }

    /// The verdict of the drawing checks: the block, or the refusal.
    pub(crate) fn judge(&self) -> Result<Block, Fault>
        ensures { Judged self.now result }
    {
        check(
            self.points.as_slice(),
            self.corners.as_slice(),
            self.faces.as_slice(),
        )
    }
}
