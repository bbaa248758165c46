// Edges are alike by their measures.
ghost use Rattle.std.specs.Prelude.{◌≡◌, ◌<◌, true, T};
ghost use Rattle.std.proofs.Common.{subst};
ghost use Rattle.drawing.specs.Nets.{edges};
ghost use Rattle.label.specs.Measured.{measure, Ranged, Asked};
ghost use Rattle.label.specs.Sameness.{same_measures};
ghost use Rattle.label.specs.Equals.{same_self, same_is};
ghost use Rattle.label.specs.declared.measures.Measures.{Measures};

use crate::kind::Kind;
use crate::measures::Measures;
use block::Block;
use solid::{dot, volume};

impl Measures {
    /// What the edge of this index measures. For the crates above: the block is to have that edge.
    pub fn of(block: &Block, edge: usize) -> Self
        requires { edge < edges block.now }
        ensures is { result ≡ measure block.now edge }
        ensures ranged { Ranged result }
    {
        let after = block.next(edge);
        let e = block.vector(edge);
        let b = block.vector(after);
        let b2 = block.vector(block.next(after));
        let c = block.vector(block.next(block.opposite(edge)));
        Measures {
            ee: dot(e, e),
            eb: dot(e, b),
            eb2: dot(e, b2),
            ec: dot(e, c),
            bc: dot(b, c),
            volume: volume(e, b, c),
        }
    }

    /// What the edge of this number, from 1, measures; or that the block has no such edge.
    pub fn at(block: &Block, number: usize) -> Option<Self>
        ensures { Asked block.now number result }
    {
        if number == 0 || number > block.edge_count() {
            return None;
        }
        Some(Measures::of(block, number - 1))
    }
}

/// The kind of the mould shop.
pub struct Measure;

impl Kind for Measure {
    type Label = Measures;

    ghost label = { measure };

    ghost same = { same_measures };

    ghost measured = { true };

    ghost reflexive = { λ x. same_self x };

    ghost symmetric = { λ x y h. subst (λ (z : Measures). T (same_measures z x)) (same_is x y h) (same_self x) };

    ghost transitive = { λ x y z h k. subst (λ (w : Measures). T (same_measures x w)) (same_is y z k) h };

    ghost contains = { λ t a b e f ca cb le lf h. same_is (measure a e) (measure b f) h };

    fn make(block: &Block, edge: usize) -> Measures {
        Measures::of(block, edge)
    }

    fn alike(x: &Measures, y: &Measures) -> bool {
        *x == *y
    }
}
