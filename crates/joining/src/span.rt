// The edges of an entry.
ghost use Rattle.std.specs.Prelude.{◌≡◌, ◌+◌, ◌≤◌, length};
ghost use Rattle.holding.specs.Spans.{edges_of};

use entries::record::Entry;
use stored::record::Edge;

/// The records of an entry's edges. For the crates above: they are to be in the table.
pub fn edges_of<L>(records: &[Edge<L>], entry: Entry) -> &[Edge<L>]
    requires { entry.start + entry.edges ≤ length records.now }
    ensures { result.now ≡ edges_of records.now entry }
{
    let start = entry.start;
    let end = start + entry.edges;
    &records[start..end]
}
