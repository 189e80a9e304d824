// Whether the standing graph can be emptied: whether its loose vertices have an order in which each is joined to fewer than there are
// registers that are fixed or later.
ghost use Rattle.std.specs.Prelude.{◌≡◌, ℕ, ◌<◌, true, ◌&&◌, nat_lt, Decides};
ghost use Rattle.graph.specs.Counting.{count, first as first_of};
ghost use Rattle.numbers.specs.Sets.{has};
ghost use Rattle.session_laws.specs.Emptying.{CanBeEmptied};
ghost use Rattle.session_laws.specs.Peeling.{light_in, empties};
ghost use Rattle.standing.specs.Standing.{graph_of, fixed_in, registers_of};

use super::Standing;
use numbers::NumberSet;

impl Standing {
    // Whether v is joined to fewer of a set than there are registers.
    fn few_of(&self, v: usize, set: &NumberSet) -> bool
        ensures { result ≡ nat_lt (count (λ w. (graph_of self.now).joined v w && has set.now w) (graph_of self.now).size) (registers_of self.now) }
    {
        self.row(v).intersection(set).len() < self.registers
    }

    // The lowest of a set that is joined to fewer than there are registers that are fixed or in it.
    fn light_in(&self, rest: &NumberSet) -> Option<usize>
        requires { (w : ℕ) → has rest.now w ≡ true → w < (graph_of self.now).size }
        ensures { result ≡ first_of (light_in (fixed_in self.now) (registers_of self.now) (graph_of self.now) (has rest.now)) 0 (graph_of self.now).size }
    {
        let bound = self.fixed().union(rest);
        rest.iter().find(|v| self.few_of(*v, &bound))
    }

    // Takes away one light vertex after the other, as long as there is one.
    pub fn can_be_emptied(&self) -> bool
        ensures by_peeling { result ≡ empties (fixed_in self.now) (registers_of self.now) (graph_of self.now) }
        ensures exactly { Decides result (CanBeEmptied (fixed_in self.now) (registers_of self.now) (graph_of self.now)) }
    {
        let mut rest = self.loose();
        while let Some(v) = self.light_in(&rest) {
            rest.remove(v);
        }
        rest.is_empty()
    }
}
