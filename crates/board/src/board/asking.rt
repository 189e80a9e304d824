#![tactic(auto, unfolding(crate::specs::Boards::opened_graph, crate::specs::Boards::table_of))]

// What can be asked of the merged graph.
ghost use Rattle.std.specs.Prelude.{◌≡◌, ℕ, ◌&&◌};
ghost use Rattle.graph.specs.Counting.{count};
ghost use Rattle.numbers.specs.Sets.{has};
ghost use Rattle.board.specs.Boards.{opened_graph, merged_graph, table_of};

use super::Board;
use numbers::NumberSet;

impl Board {
    pub fn size(&self) -> usize
        ensures { result ≡ (opened_graph self.now).size }
    {
        self.size
    }

    pub fn is_vertex(&self, v: usize) -> bool
        ensures { result ≡ (opened_graph self.now).stands v }
    {
        self.vertices.contains(v)
    }

    // All vertices of the graph as opened.
    pub fn vertices(&self) -> NumberSet
        ensures { (v : ℕ) → has result v ≡ (opened_graph self.now).stands v }
    {
        self.vertices
    }

    // The name of the group that v is in.
    pub fn group(&self, v: usize) -> usize
        ensures { result ≡ table_of self.now v }
    {
        self.table.group(v)
    }

    // The neighbours of u in the merged graph.
    pub fn row(&self, u: usize) -> NumberSet
        ensures { (v : ℕ) → has result v ≡ (merged_graph self.now).joined u v }
    {
        self.rows.row(u)
    }

    pub fn joined(&self, u: usize, v: usize) -> bool
        ensures { result ≡ (merged_graph self.now).joined u v }
    {
        self.row(u).contains(v)
    }

    // How many of a set u is joined to.
    pub fn degree_among(&self, u: usize, among: &NumberSet) -> usize
        ensures { result ≡ count (λ v. (merged_graph self.now).joined u v && has among.now v) (opened_graph self.now).size }
    {
        self.row(u).intersection(among).len()
    }
}
