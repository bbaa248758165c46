// The drawing checks.
ghost use Rattle.std.specs.Prelude.{◌≡◌, ℕ, ◌<◌, ◌≤◌, ◌^◌, length, map, take, IfOk, Option};
ghost use Rattle.drawing.specs.Causes.{Fault};
ghost use Rattle.drawing.specs.Lists.{at};
ghost use Rattle.drawing.specs.Nets.{marks_of};
ghost use Rattle.drawing.specs.Verdicts.{tables, Draws};
ghost use Rattle.block.specs.Checked.{Checked, net_from};
ghost use Rattle.block.specs.Views.{fault_of, Verdict};

use super::{Block, Edge};
use arrayvec::ArrayVec;
use drawing::fault::Fault;
use drawing::record::{Corner, Face};
use shape::edges::Edges;
use solid::Point;
use tables::wiring::{Wiring, wire};

/// The edges of a drawing that passed, one for each corner.
fn edges_of(corners: &[Corner], wiring: &Wiring) -> ArrayVec<Edge, 480>
    requires few { length corners.now ≤ 480 }
    requires small { (k : ℕ) → k < length corners.now → (at wiring.now.starts k < 2 ^ 16) × ((at wiring.now.next k < 2 ^ 16) × (at wiring.now.opposite k < 2 ^ 16)) }
    ensures starts { map (λ e. e.start) result.items ≡ take (length corners.now) wiring.now.starts }
    ensures marks { map (λ e. e.mark) result.items ≡ marks_of corners.now }
    ensures next { map (λ e. e.next) result.items ≡ take (length corners.now) wiring.now.next }
    ensures opposite { map (λ e. e.opposite) result.items ≡ take (length corners.now) wiring.now.opposite }
{
    // by index, and pushed: four lists in step are no plainer zipped, and to collect into an `ArrayVec` asks for an allocator
    let mut edges = ArrayVec::new();
    for (k, corner) in corners.iter().enumerate() {
        edges.push(Edge {
            start: wiring.starts[k] as u16,
            mark: corner.mark,
            next: wiring.next[k] as u16,
            opposite: wiring.opposite[k] as u16,
        });
    }
    edges
}

/// The block of a drawing that passed.
fn assemble(points: &[Point], corners: &[Corner], wiring: &Wiring) -> Block
    requires { Checked (net_from points.now corners.now wiring.now) }
    ensures { result ≡ net_from points.now corners.now wiring.now }
{
    let Ok(points) = ArrayVec::try_from(points) else {
        unreachable!()
    };
    Block {
        points,
        edges: edges_of(corners, wiring),
    }
}

/// Makes the twelve checks of a drawing, and answers its checked block, or the first check that fails with its place.
pub fn check(points: &[Point], corners: &[Corner], faces: &[Face]) -> Result<Block, Fault>
    ensures verdict { Verdict (tables points.now corners.now faces.now) (fault_of result) }
    ensures only { (v : Option Fault) → Verdict (tables points.now corners.now faces.now) v → v ≡ fault_of result }
    ensures checked { IfOk result (λ b. Checked b) }
    ensures drawn { IfOk result (λ b. Draws (tables points.now corners.now faces.now) b) }
{
    let wiring = wire(points, corners, faces)?;
    let n = corners.len();
    let edges = Edges {
        points,
        starts: &wiring.starts[0..n],
        next: &wiring.next[0..n],
        opposite: &wiring.opposite[0..n],
        order: &wiring.order[0..n],
        home: &wiring.home[0..n],
    };
    edges.check_shape()?;
    Ok(assemble(points, corners, &wiring))
}
