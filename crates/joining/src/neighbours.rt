// The numbers that a row joins its destination to.
ghost use Rattle.std.specs.Prelude.{◌≡◌, ℕ, not, ◌&&◌, nat_lt};
ghost use Rattle.code.specs.Codes.{is_move};
ghost use Rattle.code.specs.Rows.{fields};
ghost use Rattle.liveness.specs.Flow.{names};
ghost use Rattle.liveness.specs.Found.{after_of};
ghost use Rattle.numbers.specs.Sets.{has};
ghost use Rattle.joining.specs.Near.{near};

use code::{FIRST_VALUE, Row};
use liveness::Liveness;
use numbers::NumberSet;

// Two registers are never joined.
fn without_registers(live: NumberSet, to: u16) -> NumberSet
    ensures { (v : ℕ) → has result v ≡ (has live v && not (nat_lt to 32 && nat_lt v 32)) }
{
    if usize::from(to) < FIRST_VALUE {
        live.difference(&NumberSet::below(FIRST_VALUE))
    } else {
        live
    }
}

// A move does not join its destination to its source.
fn without_source(mut live: NumberSet, row: Row) -> NumberSet
    ensures { (v : ℕ) → has result v ≡ (has live v && not (is_move (fields row) && names (fields row).first v)) }
{
    if row.is_move()
        && let Some(from) = row.first_source()
    {
        live.remove(usize::from(from));
    }
    live
}

// The numbers that are live after the row at a place and that the row, which sets `to`, joins it to.
pub(crate) fn neighbours(row: Row, to: u16, live: &Liveness, place: usize) -> NumberSet
    ensures { (v : ℕ) → has result v ≡ near (fields row) to (after_of live.now place) v }
{
    let mut others = without_registers(without_source(live.after(place), row), to);
    others.remove(usize::from(to));
    others
}
