// One row's part in what is live: what follows it, what it reads and what it sets.
ghost use Rattle.std.specs.Prelude.{◌≡◌, ℕ, ◌<◌, true, not, ◌&&◌, ◌||◌};
ghost use Rattle.code.specs.Codes.{rows_of};
ghost use Rattle.code.specs.Fits.{below};
ghost use Rattle.code.specs.Rows.{fields};
ghost use Rattle.numbers.specs.Sets.{has};
ghost use Rattle.liveness.specs.Families.{in_set, target_passes, row_ahead, ahead, asked};
ghost use Rattle.liveness.specs.Flow.{names, row_reads, row_sets};

use code::{Code, Row};
use numbers::NumberSet;

// The set for a row, which is empty past the last row.
pub(crate) fn set_at(family: &[NumberSet], place: usize) -> NumberSet
    ensures { (v : ℕ) → has result v ≡ in_set family.now place v }
{
    family.get(place).copied().unwrap_or_default()
}

// The set for the row that a field names.
fn set_at_target(family: &[NumberSet], target: Option<u16>) -> NumberSet
    ensures { (v : ℕ) → has result v ≡ target_passes target (λ j. in_set family.now j v) }
{
    target.map_or_else(NumberSet::new, |place| set_at(family, usize::from(place)))
}

fn without(mut set: NumberSet, number: Option<u16>) -> NumberSet
    ensures { (v : ℕ) → has result v ≡ (has set v && not (names number v)) }
{
    if let Some(n) = number {
        set.remove(usize::from(n));
    }
    set
}

fn with(mut set: NumberSet, number: Option<u16>) -> NumberSet
    requires { below 512 number ≡ true }
    ensures { (v : ℕ) → has result v ≡ (names number v || has set v) }
{
    if let Some(n) = number {
        let _ = set.insert(usize::from(n));
    }
    set
}

// What is live after a row, from what is live before every row.
fn after_row(row: Row, place: usize, before: &[NumberSet]) -> NumberSet
    requires { place < 512 }
    ensures { (v : ℕ) → has result v ≡ row_ahead (fields row) place (λ j. in_set before.now j v) }
{
    let live = set_at_target(before, row.target());
    if row.goes_nowhere() {
        return live;
    }
    live.union(&set_at(before, place + 1))
}

// What is live before a row, from what is live after it. The row reads before it sets.
fn before_row(row: Row, after: NumberSet) -> NumberSet
    requires first { below 512 (fields row).first ≡ true }
    requires second { below 512 (fields row).second ≡ true }
    ensures { (v : ℕ) → has result v ≡ (row_reads (fields row) v || (has after v && not (row_sets (fields row) v))) }
{
    let kept = without(after, row.destination());
    with(with(kept, row.second_source()), row.first_source())
}

// What is live after the row at a place, from what is live before every row.
pub(crate) fn set_after(code: &Code, before: &[NumberSet], place: usize) -> NumberSet
    requires { place < 512 }
    ensures { (v : ℕ) → has result v ≡ ahead (rows_of code.now) place (λ j. in_set before.now j v) }
{
    // A match: a closure would have to require what its arm knows of the row.
    match code.row(place) {
        Some(row) => after_row(row, place, before),
        None => NumberSet::new(),
    }
}

// What is live before the row at a place, from what is live before every row that follows it.
pub(crate) fn set_before(code: &Code, before: &[NumberSet], place: usize) -> NumberSet
    requires { place < 512 }
    ensures { (v : ℕ) → has result v ≡ asked (rows_of code.now) before.now place v }
{
    match code.row(place) {
        Some(row) => before_row(row, after_row(row, place, before)),
        None => NumberSet::new(),
    }
}
