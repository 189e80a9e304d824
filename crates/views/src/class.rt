// The view in which only the vertices of one class stand.
ghost use Rattle.std.specs.Prelude.{◌≡◌};
ghost use Rattle.graph.specs.Views.{is_chosen};
ghost use Rattle.views.specs.Tables.{class_at};

use crate::keeps::Keeps;
use crate::view::View;
use graph::class::Class;

#[derive(Clone, Copy)]
pub struct ClassLook {
    // an array, since the library takes no heap
    classes: [Option<Class>; 512],
    chosen: Class,
}

pub type ClassView<G> = View<ClassLook, G>;

impl<G> View<ClassLook, G> {
    pub fn new(below: G, classes: [Option<Class>; 512], chosen: Class) -> Self
        ensures below { result.below ≡ below }
        ensures classes { result.look.classes ≡ classes }
        ensures chosen { result.look.chosen ≡ chosen }
    {
        View {
            look: ClassLook { classes, chosen },
            below,
        }
    }
}

impl Keeps for ClassLook {
    ghost kept = { λ l v. is_chosen l.chosen (class_at l.classes v) };

    fn keeps(&self, v: usize) -> bool {
        self.classes.get(v).copied().flatten() == Some(self.chosen)
    }
}
