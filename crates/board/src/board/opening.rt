#![tactic(auto, unfolding(crate::specs::Boards::opened_graph, crate::specs::Boards::table_of))]

ghost use Rattle.std.specs.Prelude.{◌≡◌};
ghost use Rattle.graph.specs.Shape.{Lawful};
ghost use Rattle.board.specs.Sound.{snapshot};
ghost use Rattle.board.specs.Boards.{opened_graph, table_of};

use super::Board;
use crate::rows::Rows;
use numbers::NumberSet;
use views::merge_table::MergeTable;

impl Board {
    // The graph with these vertices and rows, nothing merged.
    pub fn new(size: usize, vertices: NumberSet, given: [NumberSet; 512]) -> Board
        requires { Lawful (snapshot size vertices given) }
        ensures graph { opened_graph result ≡ snapshot size vertices given }
        ensures table { table_of result ≡ (λ v. v) }
    {
        let given = Rows::new(given);
        Board {
            size,
            vertices,
            given,
            rows: given,
            table: MergeTable::new(),
        }
    }
}
