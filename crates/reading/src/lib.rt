#![tactic(auto)]

// Reading any graph into rows, so that a session asks it only once.
ghost use Rattle.std.specs.Prelude.{◌≡◌, ℕ};
ghost use Rattle.numbers.specs.Sets.{has};
ghost use Rattle.board.specs.Rows.{row_has};
ghost use Rattle.board.specs.Boards.{opened_graph, table_of};

use board::Board;
use graph::Graph;
use numbers::NumberSet;
use std::array;

fn vertices_of<H: Graph>(graph: &H) -> NumberSet
    ensures { (v : ℕ) → has result v ≡ (H.means graph.now).shape.stands v }
{
    NumberSet::of(graph.size(), |v| graph.stands(v))
}

// Only vertices are asked for their neighbours.
fn row_of<H: Graph>(graph: &H, u: usize) -> NumberSet
    ensures { (v : ℕ) → has result v ≡ (H.means graph.now).shape.joined u v }
{
    if !graph.stands(u) {
        return NumberSet::new();
    }
    NumberSet::of(graph.size(), |v| graph.joined(u, v))
}

fn rows_of<H: Graph>(graph: &H) -> [NumberSet; 512]
    ensures { (u v : ℕ) → row_has result u v ≡ (H.means graph.now).shape.joined u v }
{
    array::from_fn(
        |u|
            ensures { (v : ℕ) → has result v ≡ (H.means graph.entry.now).shape.joined u v }
        { row_of(graph, u) },
    )
}

// A board of the graph, nothing merged.
pub fn board_of<H: Graph>(graph: &H) -> Board
    ensures graph { opened_graph result ≡ (H.means graph.now).shape }
    ensures table { table_of result ≡ (λ v. v) }
{
    Board::new(graph.size(), vertices_of(graph), rows_of(graph))
}
