// A way to look at a graph. It knows nothing of the graph that it looks at, so that one look serves any.
ghost use Rattle.std.specs.Prelude.{◌≡◌, ℕ};
ghost use Rattle.graph.specs.Shape.{Shape};
ghost use Rattle.graph.specs.Views.{View as IsView};

use graph::Graph;

pub trait Look {
    // what it makes of a shape
    ghost sees: { Self → Shape → Shape };

    // It hides vertices, and shows every pair that is joined below among those that it leaves standing.
    ghost is_view: { (l : Self) → IsView (sees l) };

    fn stands<G: Graph>(&self, below: &G, v: usize) -> bool
        ensures { result ≡ (sees self.now (G.means below.now).shape).stands v };

    fn joined<G: Graph>(&self, below: &G, u: usize, v: usize) -> bool
        ensures { result ≡ (sees self.now (G.means below.now).shape).joined u v };
}
