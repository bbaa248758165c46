// The chains of the faces.
ghost use Rattle.std.specs.Prelude.{◌≡◌, ℕ, ◌<◌, ◌≤◌, length, MatchResult};
ghost use Rattle.drawing.specs.Lists.{at};
ghost use Rattle.drawing.specs.declared.fault.Cause.TheVariants.{BrokenChain};
ghost use Rattle.drawing.specs.Lowest.{RefusedAt};
ghost use Rattle.drawing.specs.Verdicts.{Followed};
ghost use Rattle.tables.specs.Walks.{WalkedAll, Complete, ChainRefused, next_of};

use crate::walk::Walk;
use arrayvec::ArrayVec;
use drawing::fault::{Cause, Fault};
use drawing::record::{Corner, Face};

/// The corners, chain by chain.
#[derive(Drop)]
pub(crate) struct Chains {
    /// the corners, in the order in which the chains meet them
    pub(crate) order: ArrayVec<usize, 480>,
    /// the first corner of each corner's chain
    pub(crate) home: ArrayVec<usize, 480>,
}

// Here and below, corners are raw until all checks are made: no type says how many there are at the most.

/// Follows the chains of the faces in order, and refuses the first face that has none.
fn follow_faces(corners: &[Corner], faces: &[Face]) -> Result<Walk, Fault>
    requires { length corners.now ≤ 480 }
    ensures { MatchResult result (WalkedAll corners.now faces.now) (RefusedAt BrokenChain (length faces.now) (λ f. Followed corners.now faces.now f → ⊥)) }
{
    let mut walk = Walk::new();
    for (k, face) in faces.iter().enumerate() {
        let broken = Fault {
            cause: Cause::BrokenChain,
            place: k + 1,
        };
        walk.follow(corners, face.first).ok_or(broken)?;
    }
    Ok(walk)
}

/// Follows the chains of all faces, which have to meet each corner once.
pub(crate) fn walk_chains(corners: &[Corner], faces: &[Face]) -> Result<Chains, Fault>
    requires { length corners.now ≤ 480 }
    ensures { MatchResult result (λ chains. Complete corners.now faces.now chains.order.items chains.home.items) (ChainRefused corners.now faces.now) }
{
    let walk = follow_faces(corners, faces)?;
    let home = walk.homes(corners.len())?;
    Ok(Chains {
        order: walk.order,
        home,
    })
}

/// The next edge of each corner.
pub(crate) fn next_edges(corners: &[Corner], home: &[usize]) -> ArrayVec<usize, 480>
    requires { (length corners.now ≤ 480) × (length home.now ≡ length corners.now) }
    ensures size { length result.items ≡ length corners.now }
    ensures each { (k : ℕ) → k < length corners.now → at result.items k ≡ next_of corners.now home.now k }
{
    // pushed: to collect into an `ArrayVec` asks for an allocator, and can fail
    let mut next = ArrayVec::new();
    for (k, c) in corners.iter().enumerate() {
        next.push(if c.next == 0 { home[k] } else { c.next - 1 });
    }
    next
}
