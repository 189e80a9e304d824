#![tactic(auto)]

// What a graph is, for everything that stores one, looks at one through a view, or works on one.
pub mod opening;
pub mod pair;
pub mod passing;
pub mod refusal;
pub mod store;
pub mod task;

ghost use Rattle.std.specs.Prelude.{◌≡◌, ℕ};
ghost use Rattle.graph.specs.Shape.{Lawful, Meaning, degree as degree_of, next as next_of};
ghost use Rattle.graph.specs.Joining.{join_answer, join_meaning};

pub use classes::class;
use passing::{count_passing, first_passing};
use refusal::Refusal;

// Six calls. Five ask and are answered on every number; join is the only one that changes anything.
pub trait Graph {
    ghost means: { Self → Meaning };

    // What each graph proves of its meaning.
    ghost lawful: { (g : Self) → Lawful (means g).shape };

    // What joining u and v leaves of the whole graph, as far as its parts: a view hands only new pairs down.
    ghost leaves: { Self → ℕ → ℕ → Self → Type 0 };

    ghost joins: { (g : Self) (u v : ℕ) (after : Self) → leaves g u v after → means after ≡ join_meaning (means g) u v };

    fn size(&self) -> usize
        ensures { result ≡ (means self.now).shape.size };

    fn stands(&self, v: usize) -> bool
        ensures { result ≡ (means self.now).shape.stands v };

    fn joined(&self, u: usize, v: usize) -> bool
        ensures { result ≡ (means self.now).shape.joined u v };

    fn degree(&self, u: usize) -> usize
        ensures { result ≡ degree_of (means self.now).shape u }
    {
        count_passing(self.size(), |v| self.joined(u, v))
    }

    // The lowest vertex, not below `from`, that u is joined to.
    fn next(&self, u: usize, from: usize) -> Option<usize>
        ensures { result ≡ next_of (means self.now).shape u from }
    {
        first_passing(from, self.size(), |v| self.joined(u, v))
    }

    fn join(&mut self, u: usize, v: usize) -> Result<(), Refusal>
        ensures answer { result ≡ join_answer (means self.old) u v }
        ensures after { means self.new ≡ join_meaning (means self.old) u v }
        ensures left { leaves self.old u v self.new };
}
