// The view in which each group of a merge table is one vertex, under the group's name.
ghost use Rattle.std.specs.Prelude.{◌≡◌, ◌&&◌, ◌==◌};
ghost use Rattle.graph.specs.Counting.{any};
ghost use Rattle.graph.specs.Views.{groups_joined};
ghost use Rattle.graph.proofs.Merging.{merged_is_view};
ghost use Rattle.views.specs.Groups.{group_at, merged_groups};
ghost use Rattle.views.specs.Tables.{merged_by};

use crate::look::Look;
use crate::merge_table::MergeTable;
use crate::view::View;
use graph::Graph;

#[derive(Clone, Copy)]
pub struct MergedLook {
    table: MergeTable,
}

pub type MergedView<G> = View<MergedLook, G>;

impl<G> View<MergedLook, G> {
    pub fn new(below: G, table: MergeTable) -> Self
        ensures below { result.below ≡ below }
        ensures table { result.look.table ≡ table }
    {
        View {
            look: MergedLook { table },
            below,
        }
    }

    // The groups of u and v become one.
    pub fn merge(&mut self, u: usize, v: usize)
        ensures below { self.new.below ≡ self.old.below }
        ensures table { group_at self.new.look.table.to ≡ merged_groups (group_at self.old.look.table.to) u v }
    {
        self.look.table = self.look.table.merge(u, v);
    }
}

impl MergedLook {
    // Whether b is a member of v that a is joined to below.
    fn links<G: Graph>(&self, below: &G, a: usize, v: usize, b: usize) -> bool
        ensures { result ≡ ((group_at self.now.table.to b == v) && (G.means below.now).shape.joined a b) }
    {
        (self.table.group(b) == v) && below.joined(a, b)
    }

    // Whether a is joined below to some member of v.
    fn meets<G: Graph>(&self, below: &G, a: usize, v: usize) -> bool
        ensures { result ≡ any (λ b. (group_at self.now.table.to b == v) && (G.means below.now).shape.joined a b) (G.means below.now).shape.size }
    {
        (0..below.size()).any(|b| self.links(below, a, v, b))
    }

    // Whether some member of u is joined below to some member of v.
    fn groups_joined<G: Graph>(&self, below: &G, u: usize, v: usize) -> bool
        ensures { result ≡ groups_joined (group_at self.now.table.to) (G.means below.now).shape u v }
    {
        (0..below.size()).any(|a| (self.table.group(a) == u) && self.meets(below, a, v))
    }
}

impl Look for MergedLook {
    ghost sees = { λ l. merged_by l.table.to };

    ghost is_view = { λ l. merged_is_view (group_at l.table.to) };

    fn stands<G: Graph>(&self, below: &G, v: usize) -> bool {
        below.stands(v) & (self.table.group(v) == v)
    }

    fn joined<G: Graph>(&self, below: &G, u: usize, v: usize) -> bool {
        (self.stands(below, u) & self.stands(below, v)) & (u != v)
            && self.groups_joined(below, u, v)
    }
}
