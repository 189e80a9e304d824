// Opening that asks nothing of the caller: the check, the opening, and then the task.
// Each store has its own: of a generic one, over stores with a lifetime, the clause on refused memory is not admitted.
ghost use Rattle.std.specs.Prelude.{◌≡◌, ◌/◌, length};
ghost use Rattle.graph.specs.Stores.{Ran, empty_store};
ghost use Rattle.edges.specs.Table.{table_opening};

use crate::edge_table::EdgeTable;
use graph::opening::OpeningRefusal;
use graph::task::Task;

pub fn with_table<T: Task + Drop>(
    n: usize,
    memory: &mut [u32],
    task: T,
) -> Result<T::Output, OpeningRefusal>
    ensures { Ran (T.Task.does task) (empty_store n (length memory.old / 2)) (memory.new ≡ memory.old) (table_opening n (length memory.old)) result }
{
    EdgeTable::check(n, memory)?;
    Ok(task.run(EdgeTable::open(n, memory)))
}
