#![tactic(auto, unfolding(crate::specs::Boards::opened_graph, crate::specs::Boards::table_of))]

ghost use Rattle.std.specs.Prelude.{◌≡◌};
ghost use Rattle.session_laws.specs.Runs.{united};
ghost use Rattle.board.specs.Boards.{opened_graph, table_of, TwoGroups};

use super::Board;

impl Board {
    // The group called `high` goes into the one called `low`.
    pub fn unite(&mut self, low: usize, high: usize)
        requires { TwoGroups self.old low high }
        ensures graph { opened_graph self.new ≡ opened_graph self.old }
        ensures table { table_of self.new ≡ united (table_of self.old) high low }
    {
        self.rows.merge(low, high);
        self.table = self.table.merge(low, high);
    }
}
