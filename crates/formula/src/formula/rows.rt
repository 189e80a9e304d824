ghost use Rattle.std.specs.Prelude.{◌≡◌, ◌+◌, ◌≤◌, [], length, take, IfOk};
ghost use Rattle.code.specs.Codes.{rows_of};
ghost use Rattle.formula.specs.Formulas as formulas;
ghost use Rattle.formula.specs.Outcome.{rows_read};
ghost use Rattle.formula.specs.Starts.{starts_from};

use code::Code;
use fields::{Limits, RecordFault};
use records::reader::Reader;

// The rows of a formula, the places of their records, and the place behind them.
#[derive(Clone, Copy)]
pub struct Body {
    pub code: Code,
    pub starts: [usize; 128],
    // both stand whether the last record is closed or not: the definition names its place either way
    pub last: usize,
    pub closed: bool,
    pub end: usize,
}

// Reads as many records as the code has room for.
pub fn read_rows(
    limits: &Limits,
    bytes: &[u8],
    at: usize,
    mut code: Code,
) -> Result<Body, RecordFault>
    requires empty { rows_of code ≡ [] }
    requires few { code.reach ≤ 128 }
    requires targets { code.reach ≡ limits.now.targets }
    requires numbers { code.numbers ≡ 32 + limits.now.values }
    requires banks { (limits.now.k0 ≤ 16) × (limits.now.k1 ≤ 16) }
    ensures value { rows_read result ≡ formulas.rows_at limits.now bytes.now at code.reach }
    ensures bounds { IfOk result (λ b. (b.code.reach ≡ code.reach) × (b.code.numbers ≡ code.numbers) × (length (rows_of b.code) ≡ code.reach) × (length b.starts ≡ 128)) }
    ensures starts { IfOk result (λ b. take code.reach b.starts ≡ starts_from at (rows_of b.code)) }
    ensures closed { IfOk result (λ b. b.closed ≡ formulas.closed (rows_of b.code)) }
{
    let count = code.reach();
    let mut reader = Reader::new(bytes, at);
    let mut starts = [0; 128];
    let mut last = at;
    let mut closed = false;
    for start in &mut starts[..count] {
        last = reader.place();
        let row = reader.record(limits)?.to_row();
        // there is room for as many rows as are read, and each keeps the bounds
        let _granted = code.push(row);
        *start = last;
        closed = row.goes_nowhere();
    }
    Ok(Body {
        code,
        starts,
        last,
        closed,
        end: reader.place(),
    })
}
