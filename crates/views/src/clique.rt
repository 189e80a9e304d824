// The view that joins the fixed vertices that stand to one another. Fixed vertices are those that keep their own number: registers.
ghost use Rattle.std.specs.Prelude.{◌≡◌};
ghost use Rattle.graph.proofs.Clique.{clique_is_view};
ghost use Rattle.views.specs.Tables.{flag, clique_by};

use crate::flags::flagged;
use crate::look::Look;
use crate::view::View;
use graph::Graph;

#[derive(Clone, Copy)]
pub struct CliqueLook {
    // an array, since the library takes no heap
    fixed: [bool; 512],
}

pub type CliqueView<G> = View<CliqueLook, G>;

impl<G> View<CliqueLook, G> {
    pub fn new(below: G, fixed: [bool; 512]) -> Self
        ensures below { result.below ≡ below }
        ensures fixed { result.look.fixed ≡ fixed }
    {
        View {
            look: CliqueLook { fixed },
            below,
        }
    }
}

impl Look for CliqueLook {
    ghost sees = { λ l. clique_by l.fixed };

    ghost is_view = { λ l. clique_is_view (flag l.fixed) };

    fn stands<G: Graph>(&self, below: &G, v: usize) -> bool {
        below.stands(v)
    }

    fn joined<G: Graph>(&self, below: &G, u: usize, v: usize) -> bool {
        let u_fixed = flagged(&self.fixed, u) & below.stands(u);
        let v_fixed = flagged(&self.fixed, v) & below.stands(v);
        below.joined(u, v) | ((u_fixed & v_fixed) & (u != v))
    }
}
