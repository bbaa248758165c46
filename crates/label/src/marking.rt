// Edges are alike by their marks.
ghost use Rattle.std.specs.Prelude.{false, nat_eq};
ghost use Rattle.label.specs.Measured.{mark};
ghost use Rattle.std.proofs.Common.{rules};

use crate::kind::Kind;
use block::Block;

/// The kind of the cage shop.
pub struct Mark;

impl Kind for Mark {
    type Label = u8;

    ghost label = { mark };

    ghost same = { nat_eq };

    ghost measured = { false };

    ghost reflexive = { Prim.search rules };

    ghost symmetric = { Prim.search rules };

    ghost transitive = { Prim.search rules };

    ghost contains = { Prim.search rules };

    fn make(block: &Block, edge: usize) -> u8 {
        block.mark(edge)
    }

    fn alike(x: &u8, y: &u8) -> bool {
        *x == *y
    }
}
