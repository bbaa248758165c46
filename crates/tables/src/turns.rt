// The edges that leave a point are all met by turning about it.
ghost use Rattle.std.specs.Prelude.{◌≡◌, ℕ, ◌<◌, ◌≤◌, false, length};
ghost use Rattle.drawing.specs.declared.fault.Cause.TheVariants.{PinchedPoint};
ghost use Rattle.drawing.specs.Lists.{at};
ghost use Rattle.drawing.specs.Lowest.{Judges};
ghost use Rattle.drawing.specs.Nets.{Whole};
ghost use Rattle.tables.specs.Bare.{bare};
ghost use Rattle.tables.specs.Marked.{mark, Marks};
ghost use Rattle.tables.specs.Turns.{turn_of, times, Rounded, Turned, AllMarked};

use crate::edges::Edges;
use crate::marks::all_marked;
use drawing::fault::{Cause, Fault};

impl Edges<'_> {
    /// Marks the edges that turning leads to from the edge `first`, of which none has a mark yet.
    fn turn_from(&self, first: usize, marks: &mut [bool])
        requires within { (first < length self.now.starts.now) × (length self.now.starts.now ≤ length marks.old) }
        requires fresh { (k : ℕ) → mark marks.old (times (turn_of self.now.next.now self.now.opposite.now) k first) ≡ false }
        ensures { Rounded (turn_of self.now.next.now self.now.opposite.now) first marks.old marks.new }
    {
        let mut e = first;
        while !marks[e] {
            marks[e] = true;
            e = self.next[self.opposite[e]];
        }
    }

    /// Marks, of the edges that leave each point, those that turning leads to from the first of them.
    fn turned(&self) -> [bool; 480]
        ensures { Turned self.now.starts.now self.now.next.now self.now.opposite.now result }
    {
        let mut marks = [false; 480];
        let mut begun = [false; 160];
        for (e, q) in self.starts.iter().enumerate() {
            if !begun[*q] {
                begun[*q] = true;
                self.turn_from(e, &mut marks);
            }
        }
        marks
    }

    /// Refuses the first point about which turning does not lead from each edge that leaves it to each.
    pub(crate) fn whole_points(&self) -> Result<(), Fault>
        ensures { Judges PinchedPoint self.now.points (Whole (bare self.now.starts.now self.now.next.now self.now.opposite.now)) (λ q. Whole (bare self.now.starts.now self.now.next.now self.now.opposite.now) q → ⊥) result }
    {
        let full = full_points(self.starts, &self.turned());
        all_marked(&full, self.points, Cause::PinchedPoint)
    }
}

/// Marks the points that no edge leaves which has no mark.
fn full_points(starts: &[usize], marks: &[bool]) -> [bool; 160]
    requires count { length starts.now ≤ length marks.now }
    requires within { (e : ℕ) → e < length starts.now → at starts.now e < 160 }
    ensures { Marks 160 (AllMarked starts.now marks.now) result }
{
    let mut full = [true; 160];
    for (e, q) in starts.iter().enumerate() {
        if !marks[e] {
            full[*q] = false;
        }
    }
    full
}
