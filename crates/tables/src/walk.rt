// A walk along the chains of the faces.
ghost use Rattle.drawing.specs.Lists.{Distinct};
ghost use Rattle.tables.specs.Steps.{Steady, Distinct-prop};

use arrayvec::ArrayVec;
use drawing::fault::{Cause, Fault};
use drawing::record::Corner;

/// The corners that the chains have met.
#[derive(Drop)]
pub(crate) struct Walk {
    /// the corners met, in order
    pub(crate) order: ArrayVec<usize, 480>,
    /// the home of each corner that was met: the first corner of its chain
    home: [Option<usize>; 480],
    ghost apart: { Distinct order.items } by { Distinct-prop order.items },
    ghost steady: { Steady order.items home },
}

impl Walk {
    ghost use Rattle.std.specs.Prelude.{◌≡◌, ℕ, ◌<◌, ◌≤◌, List, [], ◌++◌, length, IsSome, MatchOption, MatchResult};
    ghost use Rattle.drawing.specs.Chains.{Chain};
    ghost use Rattle.tables.specs.Steps.{home_of, Housed};
    ghost use Rattle.tables.specs.Walks.{Meets, Taken, NotMet};

    pub(crate) fn new() -> Self
        ensures { result.order.items ≡ [] }
    {
        Walk {
            order: ArrayVec::new(),
            home: [None; 480],
        }
    }

    /// Meets the corner `k`, whose chain starts at `home`, unless it was met before.
    fn meet(&mut self, k: usize, home: usize) -> Option<()>
        requires { k < 480 }
        ensures { MatchOption result (IsSome (home_of self.old.home k)) (λ _. Meets k home self.old self.new) }
    {
        let None = self.home[k] else {
            return None;
        };
        self.home[k] = Some(home);
        self.order.push(k);
        Some(())
    }

    /// Follows the chain from the corner number `first`. None where it is no chain: it leads out of the table, to a
    /// corner that was met before, or has fewer than three corners.
    pub(crate) fn follow(&mut self, corners: &[Corner], first: usize) -> Option<()>
        requires { length corners.now ≤ 480 }
        ensures { MatchOption result ((ks : List ℕ) → Chain corners.now first ks → Distinct (self.old.order.items ++ ks) → ⊥) (λ _. Taken corners.now first self.old self.new) }
    {
        let from = self.order.len();
        let mut number = first;
        // the tables' own numbers, of which 0 ends a chain
        while number != 0 {
            let k = number - 1;
            let corner = corners.get(k)?;
            self.meet(k, first - 1)?;
            number = corner.next;
        }
        if self.order.len() - from >= 3 {
            Some(())
        } else {
            None
        }
    }

    /// The home of each of the first `count` corners. Refuses a walk that has not met each of them.
    pub(crate) fn homes(&self, count: usize) -> Result<ArrayVec<usize, 480>, Fault>
        requires { count ≤ 480 }
        ensures { MatchResult result (λ homes. Housed count self.now.home homes.items) (NotMet count self.now) }
    {
        let unmet = Fault {
            cause: Cause::BrokenChain,
            place: 0,
        };
        let mut homes = ArrayVec::new();
        for home in &self.home[0..count] {
            homes.push(home.ok_or(unmet)?);
        }
        Ok(homes)
    }
}
