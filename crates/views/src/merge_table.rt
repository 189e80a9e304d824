// Which numbers have been merged: each maps to the name of its group, the lowest number in it.
ghost use Rattle.std.specs.Prelude.{◌≡◌, ℕ, ◌<◌, true, min, max, length, slice_index_or};
ghost use Rattle.views.specs.Groups.{group_at, settled_at, merged_groups, renamed};

use std::array;

#[derive(Clone, Copy)]
pub struct MergeTable {
    // an array, since the library takes no heap
    to: [u16; 512],
    ghost whole: { length to ≡ 512 },
    ghost settled: { (v : ℕ) → settled_at (group_at to) v ≡ true },
}

impl Default for MergeTable {
    ghost is_default = { λ t. group_at t.to ≡ (λ v. v) };

    fn default() -> MergeTable {
        MergeTable::new()
    }
}

impl MergeTable {
    // Each number alone.
    pub fn new() -> MergeTable
        ensures { group_at result.to ≡ (λ v. v) }
    {
        MergeTable {
            to: array::from_fn(own_name),
        }
    }

    // The name of the group that v is in.
    pub fn group(&self, v: usize) -> usize
        ensures { result ≡ group_at self.now.to v }
    {
        self.to.get(v).copied().map_or(v, usize::from)
    }

    // The groups of u and v as one.
    pub fn merge(self, u: usize, v: usize) -> MergeTable
        ensures { group_at result.to ≡ merged_groups (group_at self.to) u v }
    {
        let (Some(&a), Some(&b)) = (self.to.get(u), self.to.get(v)) else {
            return self;
        };
        MergeTable {
            to: unite(self.to, a, b),
        }
    }
}

// The name of v where it is alone.
fn own_name(v: usize) -> u16
    requires { v < 512 }
    ensures { result ≡ v }
{
    // narrows; proved to fit
    v as u16
}

// The members of the groups named a and b under the lower of the two names.
fn unite(mut to: [u16; 512], a: u16, b: u16) -> [u16; 512]
    requires { length to ≡ 512 }
    ensures whole { length result ≡ 512 }
    ensures each { (w : ℕ) → w < 512 → slice_index_or result w w ≡ renamed (group_at to) (max a b) (min a b) w }
{
    let (high, low) = (a.max(b), a.min(b));
    for name in &mut to {
        if *name == high {
            *name = low;
        }
    }
    to
}
