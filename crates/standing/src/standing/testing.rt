// The tests for merging two vertices.
ghost use Rattle.std.specs.Prelude.{◌≡◌, ℕ, ◌<◌, true, ◌&&◌};
ghost use Rattle.graph.specs.Counting.{count};
ghost use Rattle.numbers.specs.Sets.{has};
ghost use Rattle.session_laws.specs.Tests.{significant, briggs as briggs_test, george as george_test, may_merge};
ghost use Rattle.standing.specs.Standing.{graph_of, fixed_in, registers_of};

use super::Standing;
use numbers::NumberSet;

impl Standing {
    // How many of a set are significant.
    fn significant_among(&self, set: &NumberSet) -> usize
        requires { (w : ℕ) → has set.now w ≡ true → w < (graph_of self.now).size }
        ensures { result ≡ count (λ w. has set.now w && significant (fixed_in self.now) (registers_of self.now) (graph_of self.now) w) (graph_of self.now).size }
    {
        set.iter().filter(|w| self.is_significant(*w)).count()
    }

    // Briggs's test: u and v have together fewer different significant neighbours than there are registers.
    pub fn briggs(&self, u: usize, v: usize) -> bool
        ensures { result ≡ briggs_test (fixed_in self.now) (registers_of self.now) (graph_of self.now) u v }
    {
        let near = self.row(u).union(&self.row(v));
        self.significant_among(&near) < self.registers
    }

    // George's test: every significant neighbour of v is joined to u.
    pub fn george(&self, u: usize, v: usize) -> bool
        ensures { result ≡ george_test (fixed_in self.now) (registers_of self.now) (graph_of self.now) u v }
    {
        let beyond = self.row(v).difference(&self.row(u));
        !beyond.iter().any(|w| self.is_significant(w))
    }

    // George's test where one of the two is fixed, else Briggs's.
    pub fn may_merge(&self, u: usize, v: usize) -> bool
        ensures { result ≡ may_merge (fixed_in self.now) (registers_of self.now) (graph_of self.now) u v }
    {
        if self.is_fixed(u) {
            self.george(u, v)
        } else if self.is_fixed(v) {
            self.george(v, u)
        } else {
            self.briggs(u, v)
        }
    }
}
