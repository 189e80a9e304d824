// A graph that is another graph, looked at in some way.
ghost use Rattle.std.specs.Prelude.{◌≡◌};
ghost use Rattle.std.proofs.Common.{◌∙◌, ap};
ghost use Rattle.graph.specs.Joining.{judge_of};
ghost use Rattle.graph.specs.Views.{over, HandedDown};
ghost use Rattle.graph.proofs.Joining.{view_joined};

use crate::look::Look;
use graph::Graph;
use graph::pair::{Pair, judge};
use graph::refusal::Refusal;

pub struct View<L, G> {
    pub(crate) look: L,
    pub(crate) below: G,
}

impl<L: Drop, G> View<L, G> {
    // Hands the graph below back.
    pub fn into_below(self) -> G
        ensures { result ≡ self.below }
    {
        let View { look: _, below } = self;
        below
    }
}

impl<L: Look, G: Graph> Graph for View<L, G> {
    ghost means = { λ g. over (L.sees g.look) (G.means g.below) };

    ghost lawful = { λ g. (L.is_view g.look).keeps_laws (G.means g.below).shape (G.lawful g.below) };

    // the look stays, and only a pair that is new in the view reaches the graph below
    ghost leaves = { λ g u v after. (after.look ≡ g.look) × HandedDown (judge_of (L.sees g.look (G.means g.below).shape) u v) (after.below ≡ g.below) (G.leaves g.below u v after.below) };

    ghost joins = { λ g u v after k. ap (λ look. over (L.sees look) (G.means after.below)) k.0 ∙ view_joined G.means G.leaves G.lawful G.joins (L.sees g.look) (L.is_view g.look) g.below after.below u v k.1 };

    fn size(&self) -> usize {
        self.below.size()
    }

    fn stands(&self, v: usize) -> bool {
        self.look.stands(&self.below, v)
    }

    fn joined(&self, u: usize, v: usize) -> bool {
        self.look.joined(&self.below, u, v)
    }

    fn join(&mut self, u: usize, v: usize) -> Result<(), Refusal> {
        match judge(
            self.size(),
            u,
            v,
            self.stands(u) & self.stands(v),
            self.joined(u, v),
        )? {
            Pair::Present => Ok(()),
            Pair::Fresh => self.below.join(u, v),
        }
    }
}
