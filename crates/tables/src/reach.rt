// All edges are reached from edge 1 by next edges and opposites.
ghost use Rattle.std.specs.Prelude.{◌≡◌, ◌+◌, ◌<◌, ◌≤◌, true, [], ◌∷◌, ◌++◌, length, if◌then◌else◌, slice_set};
ghost use Rattle.drawing.specs.declared.fault.Cause.TheVariants.{UnreachedEdge};
ghost use Rattle.drawing.specs.Lowest.{Judges};
ghost use Rattle.drawing.specs.Nets.{Reached};
ghost use Rattle.tables.specs.Bare.{bare};
ghost use Rattle.tables.specs.Marked.{mark, unmarked, Marks};

use crate::edges::Edges;
use crate::marks::all_marked;
use drawing::fault::{Cause, Fault};
use waiting::Waiting;

/// Marks `e`, and has it wait, unless it has its mark already. There is room for all that have none.
fn visit(list: &mut Waiting<usize>, marks: &mut [bool], e: usize)
    requires { (e < length marks.old) × (length list.old.items + unmarked marks.old ≤ list.old.slots) }
    ensures marks { marks.new ≡ slice_set marks.old e true }
    ensures items { list.new.items ≡ (if mark marks.old e then list.old.items else list.old.items ++ (e ∷ [])) }
    ensures left { length list.new.items + unmarked marks.new ≡ length list.old.items + unmarked marks.old }
    ensures slots { list.new.slots ≡ list.old.slots }
{
    if !marks[e] {
        marks[e] = true;
        let Ok(()) = list.push(e) else { unreachable!() };
    }
}

impl Edges<'_> {
    /// Marks the edges that are reached from edge 1.
    fn reached(&self) -> [bool; 480]
        ensures { Marks 480 (Reached (bare [] self.now.next.now self.now.opposite.now)) result }
    {
        let mut marks = [false; 480];
        let mut slots = [0; 480];
        let mut list = Waiting::new(&mut slots);
        visit(&mut list, &mut marks, 0);
        while let Some(e) = list.pop() {
            visit(&mut list, &mut marks, self.next[e]);
            visit(&mut list, &mut marks, self.opposite[e]);
        }
        marks
    }

    /// Refuses the first edge that is not reached from edge 1.
    pub(crate) fn all_reached(&self) -> Result<(), Fault>
        ensures { Judges UnreachedEdge (length self.now.next.now) (Reached (bare [] self.now.next.now self.now.opposite.now)) (λ e. Reached (bare [] self.now.next.now self.now.opposite.now) e → ⊥) result }
    {
        all_marked(&self.reached(), self.next.len(), Cause::UnreachedEdge)
    }
}
