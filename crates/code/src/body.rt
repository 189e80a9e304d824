ghost use Rattle.std.specs.Prelude.{◌≡◌, ℕ, ◌<◌, ◌≤◌, true, length, slice_index_or};
ghost use Rattle.code.specs.Fits.{row_fits};
ghost use Rattle.code.specs.declared.row.Row.TheVariants.{End};

use crate::row::Row;

mod ask;
mod bounds;
pub mod build;

// The most rows, and the most numbers, that a piece of code has.
pub const MOST_ROWS: usize = 512;

// A piece of code: at most `reach` rows, whose targets are below `reach` and whose numbers are below `numbers`.
// It is complete when it has `reach` rows. A library takes no heap, so the rows lie in an array beside their number; a derived
// equality would compare the rest of the array too.
#[derive(Clone, Copy)]
pub struct Code {
    // an array and a length, since the library takes no heap
    rows: [Row; 512],
    len: usize,
    reach: usize,
    numbers: usize,
    ghost whole: { length rows ≡ 512 },
    ghost room: { len ≤ reach },
    ghost few: { reach ≤ 512 },
    ghost narrow: { numbers ≤ 512 },
    ghost fits: { (i : ℕ) → i < len → row_fits numbers reach (slice_index_or rows i End) ≡ true },
}
