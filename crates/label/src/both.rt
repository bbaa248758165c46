// Edges are alike by two kinds at once.
ghost use Rattle.std.specs.Prelude.{◌&&◌, ◌||◌};
ghost use Rattle.std.proofs.Common.{inl, inr, rules};
ghost use Rattle.label.specs.Equals.{both};
ghost use Rattle.label.specs.Halves.{one_of};

use crate::kind::Kind;
use block::Block;

/// A label of each half of a pair.
#[derive(Clone, Copy)]
pub struct Labels<X, Y> {
    pub first: X,
    pub second: Y,
}

/// The kind whose labels are the same where both halves are. A half may be a pair. No value of it is made: the fields name the halves.
pub struct Pair<A, B> {
    first: A,
    second: B,
}

impl<A: Kind, B: Kind> Kind for Pair<A, B> {
    type Label = Labels<A::Label, B::Label>;

    ghost label = { λ m e. record { first = A.Kind.label m e; second = B.Kind.label m e } };

    ghost same = { λ x y. A.Kind.same x.first y.first && B.Kind.same x.second y.second };

    ghost measured = { A.Kind.measured || B.Kind.measured };

    ghost reflexive = { Prim.search rules };

    ghost symmetric = { Prim.search rules };

    ghost transitive = { Prim.search rules };

    // a half that contains the measure makes the pair contain it
    ghost contains = { λ m a b e f ca cb le lf h.
        let halves = both _ _ h in
        elim (one_of A.Kind.measured B.Kind.measured m) [
          | inl t ↦ A.Kind.contains t a b e f ca cb le lf halves.0
          | inr t ↦ B.Kind.contains t a b e f ca cb le lf halves.1
        ] };

    fn make(block: &Block, edge: usize) -> Labels<A::Label, B::Label> {
        Labels {
            first: A::make(block, edge),
            second: B::make(block, edge),
        }
    }

    fn alike(x: &Labels<A::Label, B::Label>, y: &Labels<A::Label, B::Label>) -> bool {
        A::alike(&x.first, &y.first) && B::alike(&x.second, &y.second)
    }
}
