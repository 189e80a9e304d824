ghost use Rattle.std.specs.Prelude.{◌≡◌};
ghost use Rattle.kept.specs.Kept.{base_of, state_of};
ghost use Rattle.session_laws.specs.Base.{base_of as base_under};
ghost use Rattle.session_laws.specs.State.{opened};
ghost use Rattle.session.specs.Banks.{opening_over};

use super::Session;
use crate::bank::Bank;
use crate::start::start;
use graph::Graph;
use graph::class::Class;
use reading::board_of;
use views::class::ClassView;
use views::clique::CliqueView;

impl<G: Graph> Session<G> {
    // Opens a session over a graph: its vertices are those of the bank's class.
    pub fn open(graph: G, bank: Bank, classes: &[Option<Class>; 512]) -> Session<G>
        ensures base { base_of result.kept ≡ base_under (opening_over (G.means graph).shape bank classes.now) }
        ensures state { state_of result.kept ≡ opened }
        ensures graph { result.graph ≡ graph }
    {
        let class_view = ClassView::new(graph, bank.classes_under(classes), bank.class());
        let clique_view = CliqueView::new(class_view, bank.flags());
        let board = board_of(&clique_view);
        Session {
            graph: clique_view.into_below().into_below(),
            kept: start(board, bank),
        }
    }
}

impl<G> Session<G> {
    // Hands the graph back as it was given.
    pub fn close(self) -> G
        ensures { result ≡ self.graph }
    {
        let Session { graph, kept: _ } = self;
        graph
    }
}
