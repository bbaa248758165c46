// Marks on records, one for each.
ghost use Rattle.std.specs.Prelude.{◌≡◌, ◌≤◌, true, false, length};
ghost use Rattle.drawing.specs.Lowest.{Judges};
ghost use Rattle.tables.specs.Marked.{mark};

use drawing::fault::{Cause, Fault};

// The same line as laying's `all_hit`: one function for both is no plainer, since a crate below both would have to know of marks.

/// Refuses the first of `count` records that has no mark, for this cause.
pub(crate) fn all_marked(marks: &[bool], count: usize, cause: Cause) -> Result<(), Fault>
    requires { count ≤ length marks.now }
    ensures { Judges cause count (λ k. mark marks.now k ≡ true) (λ k. mark marks.now k ≡ false) result }
{
    Fault::refuse_first(cause, marks[0..count].iter().position(|m| !*m))
}
