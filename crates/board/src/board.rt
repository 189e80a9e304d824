ghost use Rattle.board.specs.Sound.{SoundBoard};

use crate::rows::Rows;
use numbers::NumberSet;
use views::merge_table::MergeTable;

mod asking;
mod opening;
mod uniting;

// The graph as opened, in `vertices` and `given`, and the merged graph, in `rows`: the row of a group's name has the names of its
// neighbours. Each pair stands in two rows. Code goes by `rows` alone: `given` stands here for what is promised of the graph as
// opened, since a ghost field holds facts and no data.
#[derive(Clone, Copy)]
pub struct Board {
    size: usize,
    vertices: NumberSet,
    given: Rows,
    rows: Rows,
    table: MergeTable,
    ghost sound: { ∥ SoundBoard size vertices given.sets rows.sets table.to ∥₁ },
}
