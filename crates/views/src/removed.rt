// The view that hides the vertices taken away.
ghost use Rattle.std.specs.Prelude.{◌≡◌, not};
ghost use Rattle.views.specs.Tables.{flag};

use crate::flags::flagged;
use crate::keeps::Keeps;
use crate::view::View;

#[derive(Clone, Copy)]
pub struct RemovedLook {
    // an array, since the library takes no heap
    gone: [bool; 512],
}

pub type RemovedView<G> = View<RemovedLook, G>;

impl<G> View<RemovedLook, G> {
    pub fn new(below: G, gone: [bool; 512]) -> Self
        ensures below { result.below ≡ below }
        ensures gone { result.look.gone ≡ gone }
    {
        View {
            look: RemovedLook { gone },
            below,
        }
    }
}

impl Keeps for RemovedLook {
    ghost kept = { λ l v. not (flag l.gone v) };

    fn keeps(&self, v: usize) -> bool {
        !flagged(&self.gone, v)
    }
}
