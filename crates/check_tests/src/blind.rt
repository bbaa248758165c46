// A kind to which all edges are alike.
ghost use Rattle.std.specs.Prelude.{true, false};
ghost use Rattle.std.proofs.Common.{rules};

use block::Block;
use label::kind::Kind;

/// It calls all labels the same. That is lawful; but it does not contain the measure, and cannot say that it does.
pub struct Blind;

impl Kind for Blind {
    type Label = bool;

    ghost label = { λ _ _. true };

    ghost same = { λ _ _. true };

    ghost measured = { false };

    ghost reflexive = { Prim.search rules };

    ghost symmetric = { Prim.search rules };

    ghost transitive = { Prim.search rules };

    ghost contains = { Prim.search rules };

    fn make(_block: &Block, _edge: usize) -> bool {
        true
    }

    fn alike(_x: &bool, _y: &bool) -> bool {
        true
    }
}
