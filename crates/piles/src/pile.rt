// All four views at once, over any graph.
ghost use Rattle.std.specs.Prelude.{◌≡◌};
ghost use Rattle.graph.specs.Shape.{degree as degree_of, next as next_of};
ghost use Rattle.graph.specs.Joining.{judge_of, join_answer, join_meaning};
ghost use Rattle.graph.specs.Views.{over, HandedDown};
ghost use Rattle.piles.specs.Piles.{pile_of, looks_of, graph_of};

use crate::looks::Looks;
use graph::Graph;
use graph::refusal::Refusal;
use views::class::ClassView;
use views::clique::CliqueView;
use views::merged::MergedView;
use views::removed::RemovedView;

// What a pile answers on two numbers.
#[derive(Drop)]
pub struct Asked {
    pub size: usize,
    pub u_stands: bool,
    pub joined: bool,
    pub u_degree: usize,
    pub next: Option<usize>,
    pub join: Result<(), Refusal>,
}

// The four views, one over the other.
type Pile<G> = RemovedView<MergedView<CliqueView<ClassView<G>>>>;

fn piled<G>(graph: G, looks: Looks) -> Pile<G>
    ensures looks { looks_of result ≡ looks }
    ensures graph { graph_of result ≡ graph }
{
    let Looks {
        classes,
        chosen,
        fixed,
        table,
        gone,
    } = looks;
    let classed = ClassView::new(graph, classes, chosen);
    let cliqued = CliqueView::new(classed, fixed);
    let merged = MergedView::new(cliqued, table);
    RemovedView::new(merged, gone)
}

fn unpiled<G>(pile: Pile<G>) -> G
    ensures { result ≡ graph_of pile }
{
    pile.into_below().into_below().into_below().into_below()
}

// Asks the pile about u and v, joins them in it, and hands the graph back.
pub fn ask_and_join<G: Graph>(graph: G, looks: Looks, u: usize, v: usize) -> (G, Asked)
    ensures size { result.1.size ≡ (pile_of looks (G.means graph).shape).size }
    ensures stands { result.1.u_stands ≡ (pile_of looks (G.means graph).shape).stands u }
    ensures joined { result.1.joined ≡ (pile_of looks (G.means graph).shape).joined u v }
    ensures degree { result.1.u_degree ≡ degree_of (pile_of looks (G.means graph).shape) u }
    ensures next { result.1.next ≡ next_of (pile_of looks (G.means graph).shape) u v }
    ensures join { result.1.join ≡ join_answer (over (pile_of looks) (G.means graph)) u v }
    ensures seen { over (pile_of looks) (G.means result.0) ≡ join_meaning (over (pile_of looks) (G.means graph)) u v }
    ensures below { HandedDown (judge_of (pile_of looks (G.means graph).shape) u v) (result.0 ≡ graph) (G.means result.0 ≡ join_meaning (G.means graph) u v) }
{
    let mut pile = piled(graph, looks);
    let size = pile.size();
    let u_stands = pile.stands(u);
    let joined = pile.joined(u, v);
    let u_degree = pile.degree(u);
    let next = pile.next(u, v);
    let join = pile.join(u, v);
    (
        unpiled(pile),
        Asked {
            size,
            u_stands,
            joined,
            u_degree,
            next,
            join,
        },
    )
}
