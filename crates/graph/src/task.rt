// Work on a store that was just opened. Who opens one checks first and then hands it on to a task, so that the caller owes nothing.
ghost use Rattle.graph.specs.Shape.{Meaning};

use crate::store::Store;

pub trait Task {
    type Output;

    // how the answer comes from what the store means when it is handed on
    ghost does: { Self → Meaning → Self.Output → Type 0 };

    fn run<S: Store + Drop>(self, store: S) -> Self::Output
        ensures { does self (S.Graph.means store) result };
}
