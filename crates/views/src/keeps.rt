// Looks that hide vertices: what they keep, and the pairs of two such, is as it is below.
ghost use Rattle.std.specs.Prelude.{◌≡◌, ℕ, Bool};
ghost use Rattle.graph.specs.Views.{keeping};
ghost use Rattle.graph.proofs.Keeping.{keeping_view};

use crate::look::Look;
use graph::Graph;

pub trait Keeps {
    // the vertices that are kept
    ghost kept: { Self → ℕ → Bool };

    fn keeps(&self, v: usize) -> bool
        ensures { result ≡ kept self.now v };
}

impl<K: Keeps> Look for K {
    ghost sees = { λ l. keeping (K.kept l) };

    ghost is_view = { λ l. keeping_view (K.kept l) };

    fn stands<G: Graph>(&self, below: &G, v: usize) -> bool {
        below.stands(v) & self.keeps(v)
    }

    fn joined<G: Graph>(&self, below: &G, u: usize, v: usize) -> bool {
        below.joined(u, v) & (self.keeps(u) & self.keeps(v))
    }
}
