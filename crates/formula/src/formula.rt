ghost use Rattle.std.specs.Prelude.{◌≡◌, ◌+◌, length, take};
ghost use Rattle.code.specs.Codes.{rows_of};
ghost use Rattle.formula.specs.Headers.{whole_bytes};
ghost use Rattle.formula.specs.Starts.{starts_from};

use crate::header::Header;
use code::Code;

mod ask;
mod read;
mod rows;

pub use read::{read_formula, read_written};

// A formula in order: its header, its rows, and the place of each record's first byte.
#[derive(Clone, Copy)]
pub struct Formula {
    header: Header,
    code: Code,
    // an array, since the library takes no heap; the header says how many of them stand
    starts: [usize; 128],
    ghost whole: { length starts ≡ 128 },
    ghost reaches: { code.reach ≡ header.records },
    ghost complete: { length (rows_of code) ≡ header.records },
    ghost numbered: { code.numbers ≡ 32 + header.values },
    ghost placed: { take header.records starts ≡ starts_from (6 + whole_bytes header.values) (rows_of code) },
}
