ghost use Rattle.std.specs.Prelude.{◌≡◌, ◌≤◌, length};

// The groups that were taken away: they stand from `top` on, the last taken away first.
#[derive(Clone, Copy)]
pub(crate) struct Removed {
    // an array and where they begin, since the library takes no heap
    pub(crate) groups: [usize; 512],
    pub(crate) top: usize,
    ghost whole: { length groups ≡ 512 },
    ghost inside: { top ≤ 512 },
}

#[tactic(auto, unfolding(crate::specs::Removed::groups_in))]
impl Removed {
    ghost use Rattle.std.specs.Prelude.{[], ◌∷◌, ◌<◌};
    ghost use Rattle.kept.specs.Removed.{groups_in};

    pub(crate) fn new() -> Removed
        ensures { groups_in result ≡ [] }
    {
        Removed {
            groups: [0; 512],
            top: 512,
        }
    }

    pub(crate) fn push(&mut self, v: usize)
        requires { length (groups_in self.old) < 512 }
        ensures { groups_in self.new ≡ v ∷ groups_in self.old }
    {
        let top = self.top - 1;
        self.groups[top] = v;
        self.top = top;
    }
}
