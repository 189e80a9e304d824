// Opening that asks nothing of the caller: the check, the opening, and then the task.
// Each store has its own: of a generic one, over stores with a lifetime, the clause on refused memory is not admitted.
ghost use Rattle.std.specs.Prelude.{◌≡◌, length};
ghost use Rattle.graph.specs.Stores.{Ran, empty_store};
ghost use Rattle.matrix.specs.Layout.{triangle};
ghost use Rattle.matrix.specs.Matrix.{matrix_opening};

use crate::bit_matrix::BitMatrix;
use graph::opening::OpeningRefusal;
use graph::task::Task;

pub fn with_matrix<T: Task + Drop>(
    n: usize,
    memory: &mut [u8],
    task: T,
) -> Result<T::Output, OpeningRefusal>
    ensures { Ran (T.Task.does task) (empty_store n (triangle n)) (memory.new ≡ memory.old) (matrix_opening n (length memory.old)) result }
{
    BitMatrix::check(n, memory)?;
    Ok(task.run(BitMatrix::open(n, memory)))
}
