#![tactic(auto, unfolding(crate::specs::Standing::base_of, crate::specs::Standing::board_of, crate::specs::Standing::graph_of, crate::specs::Standing::is_left))]

// What can be asked of the standing graph.
ghost use Rattle.std.specs.Prelude.{◌≡◌, ℕ};
ghost use Rattle.graph.specs.Counting.{any};
ghost use Rattle.graph.specs.Shape.{degree as degree_of};
ghost use Rattle.numbers.specs.Sets.{has};
ghost use Rattle.board.specs.Boards.{table_of};
ghost use Rattle.session_laws.specs.Tests.{significant};
ghost use Rattle.standing.specs.Standing.{graph_of, base_of, fixed_in, board_of, registers_of, loose_in, light_at, light_loose};

use super::Standing;
use board::Board;
use numbers::NumberSet;

impl Standing {
    pub fn board(&self) -> &Board
        ensures { result.now ≡ board_of self.now }
    {
        &self.board
    }

    // The first register of the bank.
    pub fn first(&self) -> usize
        ensures { result ≡ (base_of self.now).first }
    {
        self.first
    }

    // How many registers the bank has.
    pub fn registers(&self) -> usize
        ensures { result ≡ registers_of self.now }
    {
        self.registers
    }

    pub fn size(&self) -> usize
        ensures { result ≡ (graph_of self.now).size }
    {
        self.board.size()
    }

    pub fn stands(&self, v: usize) -> bool
        ensures { result ≡ (graph_of self.now).stands v }
    {
        self.left.contains(v)
    }

    // The name of the group that v is in.
    pub fn group(&self, v: usize) -> usize
        ensures { result ≡ table_of (board_of self.now) v }
    {
        self.board.group(v)
    }

    pub fn is_fixed(&self, v: usize) -> bool
        ensures { result ≡ fixed_in self.now v }
    {
        (self.first..self.first + self.registers).contains(&v) && self.board.is_vertex(v)
    }

    // The neighbours of u.
    pub fn row(&self, u: usize) -> NumberSet
        ensures { (v : ℕ) → has result v ≡ (graph_of self.now).joined u v }
    {
        if self.left.contains(u) {
            self.board.row(u).intersection(&self.left)
        } else {
            NumberSet::new()
        }
    }

    pub fn joined(&self, u: usize, v: usize) -> bool
        ensures { result ≡ (graph_of self.now).joined u v }
    {
        self.row(u).contains(v)
    }

    pub fn degree(&self, u: usize) -> usize
        ensures { result ≡ degree_of (graph_of self.now) u }
    {
        self.row(u).len()
    }

    // Whether v has fewer neighbours than there are registers.
    pub fn is_light(&self, v: usize) -> bool
        ensures { result ≡ light_at self.now v }
    {
        self.degree(v) < self.registers
    }

    pub fn is_loose(&self, v: usize) -> bool
        ensures { result ≡ loose_in self.now v }
    {
        self.stands(v) && !self.is_fixed(v)
    }

    // All fixed vertices.
    pub(super) fn fixed(&self) -> NumberSet
        ensures { (v : ℕ) → has result v ≡ fixed_in self.now v }
    {
        let end = NumberSet::below(self.first + self.registers);
        let bank = end.difference(&NumberSet::below(self.first));
        bank.intersection(&self.board.vertices())
    }

    // All loose vertices that stand.
    pub(super) fn loose(&self) -> NumberSet
        ensures { (v : ℕ) → has result v ≡ loose_in self.now v }
    {
        self.left.difference(&self.fixed())
    }

    // Whether any loose vertex stands.
    pub fn any_loose(&self) -> bool
        ensures { result ≡ any (loose_in self.now) (graph_of self.now).size }
    {
        !self.loose().is_empty()
    }

    // Whether any loose vertex is light.
    pub fn any_light(&self) -> bool
        ensures { result ≡ any (light_loose self.now) (graph_of self.now).size }
    {
        self.loose().iter().any(|v| self.is_light(v))
    }

    // Whether v is fixed or has as many neighbours as there are registers, so that simplify does not take it away.
    pub fn is_significant(&self, v: usize) -> bool
        ensures { result ≡ significant (fixed_in self.now) (registers_of self.now) (graph_of self.now) v }
    {
        self.is_fixed(v) || self.degree(v) >= self.registers
    }
}
