// The value that code reads without having set it on some way from the first row.
ghost use Rattle.std.specs.Prelude.{◌≡◌, ◌≤◌, take, drop, IfSome, MatchOption};
ghost use Rattle.code.specs.Codes.{rows_of};
ghost use Rattle.liveness.specs.Laws.{AllDefined};
ghost use Rattle.liveness.specs.Ways.{Shortest, LowestUndefined};

use super::find::find_way;
use crate::liveness::Liveness;
use code::Code;

// The lowest value live before the first row, and how many rows a shortest way to a row that reads it has.
#[derive(Clone, Copy, Debug, Eq, PartialEq)]
pub struct Undefined {
    pub value: u16,
    pub rows: usize,
}

// The lowest value live before the first row.
pub fn first_undefined(code: &Code) -> Option<u16>
    ensures { MatchOption result (AllDefined (rows_of code.now)) (LowestUndefined (rows_of code.now)) }
{
    Liveness::of(code).first_undefined()
}

// The lowest value live before the first row, with a shortest way written down; where there is none, nothing is written.
pub fn find_undefined(code: &Code, way: &mut [u16; 512]) -> Option<Undefined>
    ensures lowest { MatchOption result (AllDefined (rows_of code.now)) (λ u. LowestUndefined (rows_of code.now) u.value) }
    ensures way { IfSome result (λ u. Shortest (rows_of code.now) u.value (take u.rows way.new)) }
    ensures within { IfSome result (λ u. u.rows ≤ 512) }
    ensures rest { MatchOption result (way.new ≡ way.old) (λ u. drop u.rows way.new ≡ drop u.rows way.old) }
{
    let value = first_undefined(code)?;
    let rows = find_way(code, value, way)?;
    Some(Undefined { value, rows })
}
