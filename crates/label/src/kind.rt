// What makes two edges alike.
ghost use Rattle.std.specs.Prelude.{◌≡◌, ℕ, ◌<◌, Bool, T};
ghost use Rattle.drawing.specs.Nets.{Net, edges};
ghost use Rattle.block.specs.Checked.{Checked};
ghost use Rattle.label.specs.Measured.{measure};

use block::Block;

/// A label kind: it makes a label for each edge of a checked block, and says whether two labels are the same.
/// Its functions take no `self`, so that nothing holds a value of a kind.
pub trait Kind {
    type Label: Copy;

    // the label of each edge
    ghost label: { Net → ℕ → Self.Label };

    // which labels are the same
    ghost same: { Self.Label → Self.Label → Bool };

    // whether it contains the measure
    ghost measured: { Bool };

    /// The label of the edge of this index, from 0. For the crates above: the block is to have that edge.
    fn make(block: &Block, edge: usize) -> Self::Label
        requires { edge < edges block.now }
        ensures { result ≡ label block.now edge };

    /// Whether the two labels are the same.
    fn alike(x: &Self::Label, y: &Self::Label) -> bool
        ensures { result ≡ same x.now y.now };

    ghost reflexive: { (x : Self.Label) → T (same x x) };

    ghost symmetric: { (x y : Self.Label) → T (same x y) → T (same y x) };

    ghost transitive: { (x y z : Self.Label) → T (same x y) → T (same y z) → T (same x z) };

    // a kind that contains the measure calls two edges the same only where they measure the same
    ghost contains: { T measured → (a b : Net) (e f : ℕ) → Checked a → Checked b → e < edges a → f < edges b → T (same (label a e) (label b f)) → measure a e ≡ measure b f };
}
