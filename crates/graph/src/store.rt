// Graphs whose memory can be used again.
ghost use Rattle.std.specs.Prelude.{◌≡◌, ℕ, Bool};
ghost use Rattle.graph.specs.Opening.{opening};
ghost use Rattle.graph.specs.Shape.{Meaning};
ghost use Rattle.graph.specs.Stores.{empty_store, renewed};

use crate::Graph;
use crate::opening::OpeningRefusal;

// A graph that can be opened anew over its own memory: n vertices that all stand, and no pairs.
pub trait Store: Graph {
    // whether its memory suffices for n vertices
    ghost holds: { Self → ℕ → Bool };

    // how many pairs a new store of n vertices has room for
    ghost room: { Self → ℕ → ℕ };

    // Whether it can be opened anew with n vertices.
    fn check_anew(&self, n: usize) -> Result<(), OpeningRefusal>
        ensures { result ≡ opening n (holds self.now n) };

    // The store opened anew; as it was where the check refuses.
    fn reopen(self, n: usize) -> Self
        ensures after { Self.Graph.means result ≡ renewed (opening n (holds self n)) (empty_store n (room self n)) (Self.Graph.means self) }
        ensures holds { holds result ≡ holds self }
        ensures room { room result ≡ room self };
}

// A graph that hands out fresh graphs, with or without pairs.
pub trait Fresh: Graph {
    // whether a fresh graph of n vertices can be had
    ghost has: { Self → ℕ → Bool };

    // what it means
    ghost fresh: { Self → ℕ → Meaning };

    // Whether a fresh graph of n vertices can be had.
    fn check_fresh(&self, n: usize) -> Result<(), OpeningRefusal>
        ensures { result ≡ opening n (has self.now n) };

    // The fresh graph; as it was where the check refuses.
    fn renew(self, n: usize) -> Self
        ensures after { Self.Graph.means result ≡ renewed (opening n (has self n)) (fresh self n) (Self.Graph.means self) }
        ensures has { has result ≡ has self }
        ensures fresh { fresh result ≡ fresh self };
}

// A store whose fresh graph is the store itself, opened anew: it has no pairs. One with another fresh graph to hand out leaves this
// out, and says itself what it has.
pub trait Renewable: Store {}

impl<S: Renewable> Fresh for S {
    ghost has = { λ g. S.Store.holds g };

    ghost fresh = { λ g n. empty_store n (S.Store.room g n) };

    fn check_fresh(&self, n: usize) -> Result<(), OpeningRefusal> {
        self.check_anew(n)
    }

    fn renew(self, n: usize) -> Self {
        self.reopen(n)
    }
}
