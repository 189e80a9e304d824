// A graph that is lent, for what takes a graph by value.
ghost use Rattle.std.specs.Prelude.{◌≡◌};
ghost use Rattle.graph.specs.Joining.{join_answer, join_meaning};

use graph::Graph;
use graph::refusal::Refusal;

#[derive(Drop)]
pub struct Lent<'a, G> {
    to: &'a mut G,
}

impl<'a, G> Lent<'a, G> {
    pub fn new(to: &'a mut G) -> Lent<'a, G>
        ensures now { result.to.now ≡ to.old }
        ensures same { result.to.ghost_name ≡ to.entry.ghost_name }
    {
        Lent { to }
    }
}

impl<G: Graph> Graph for Lent<'_, G> {
    ghost means = { λ g. G.means g.to.now };

    ghost lawful = { λ g. G.lawful g.to.now };

    // the same graph is lent before and after
    ghost leaves = { λ g u v after. (after.to.ghost_name ≡ g.to.ghost_name) × G.leaves g.to.now u v after.to.now };

    ghost joins = { λ g u v after k. G.joins g.to.now u v after.to.now k.1 };

    fn size(&self) -> usize {
        self.to.size()
    }

    fn stands(&self, v: usize) -> bool {
        self.to.stands(v)
    }

    fn joined(&self, u: usize, v: usize) -> bool {
        self.to.joined(u, v)
    }

    fn degree(&self, u: usize) -> usize {
        self.to.degree(u)
    }

    fn next(&self, u: usize, from: usize) -> Option<usize> {
        self.to.next(u, from)
    }

    fn join(&mut self, u: usize, v: usize) -> Result<(), Refusal>
        ensures answer { result ≡ join_answer (G.means self.old.to.now) u v }
        ensures after { G.means self.new.to.now ≡ join_meaning (G.means self.old.to.now) u v }
        ensures left { (self.new.to.ghost_name ≡ self.old.to.ghost_name) × G.leaves self.old.to.now u v self.new.to.now }
        ensures same { self.new.to.ghost_name ≡ self.old.to.ghost_name }
    {
        self.to.join(u, v)
    }
}

// Joins u and v in a graph that is lent: the graph itself has changed afterwards.
pub fn join_lent<G: Graph>(graph: &mut G, u: usize, v: usize) -> Result<(), Refusal>
    ensures answer { result ≡ join_answer (G.means graph.old) u v }
    ensures after { G.means graph.new ≡ join_meaning (G.means graph.old) u v }
{
    let mut lent = Lent::new(graph);
    lent.join(u, v)
}
