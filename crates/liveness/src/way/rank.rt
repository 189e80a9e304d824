// The rank of every row: how far it is from there to a row that reads the number.
ghost use Rattle.std.specs.Prelude.{◌≡◌, ℕ, ◌+◌, ◌<◌, ◌≤◌, length};
ghost use Rattle.code.specs.Codes.{rows_of};
ghost use Rattle.code.specs.Rows.{fields};
ghost use Rattle.liveness.specs.Flow.{names};
ghost use Rattle.liveness.specs.Ranks.{rank, target_rank, rank_ahead, row_rank, Ranked, Level, sum_of};

use crate::sweep::Rule;
use code::{Code, Row};

// The rank of a row from which no way is known. It stands above every other, so that ranks are compared and lowered as plain numbers.
pub(crate) const NO_WAY: u16 = 512;

pub(crate) fn rank_at(ranks: &[u16], place: usize) -> u16
    ensures { result ≡ rank ranks.now place }
{
    ranks.get(place).copied().unwrap_or(NO_WAY)
}

fn target_rank(ranks: &[u16], target: Option<u16>) -> u16
    ensures { result ≡ target_rank target (rank ranks.now) }
{
    target.map_or(NO_WAY, |place| rank_at(ranks, usize::from(place)))
}

// The least rank among the rows that follow this one.
fn rank_ahead(row: Row, place: usize, ranks: &[u16]) -> u16
    requires { place < 512 }
    ensures { result ≡ rank_ahead (fields row) place (rank ranks.now) }
{
    let to = target_rank(ranks, row.target());
    let next = if row.goes_nowhere() {
        NO_WAY
    } else {
        rank_at(ranks, place + 1)
    };
    to.min(next)
}

// The rank that a row gets from those of the rows that follow it.
fn rank_of(row: Row, place: usize, value: u16, ranks: &[u16]) -> u16
    requires within { place < 512 }
    requires most { (i : ℕ) → rank ranks.now i ≤ 512 }
    ensures { result ≡ row_rank (fields row) place value (rank ranks.now) }
{
    let wanted = Some(value);
    if (row.first_source() == wanted) | (row.second_source() == wanted) {
        return 0;
    }
    if row.destination() == wanted {
        return NO_WAY;
    }
    rank_ahead(row, place, ranks) + 1
}

// How far it is from each row to one that reads a value.
#[derive(Clone, Copy)]
pub(crate) struct Distance<'a> {
    pub(crate) code: &'a Code,
    pub(crate) value: u16,
}

impl Rule for Distance<'_> {
    type Fact = u16;

    ghost rows = { λ d. length (rows_of d.code.now) };

    ghost sound = { λ d ranks. Ranked (rows_of d.code.now) d.value ranks };

    ghost settled = { λ d ranks place. Level (rows_of d.code.now) d.value ranks place };

    ghost left = { λ d ranks. sum_of ranks };

    fn rows(&self) -> usize {
        self.code.len()
    }

    // Lowers the rank of one row to what is asked for there.
    fn improve(&self, ranks: &mut [u16; 512], place: usize) -> bool {
        // No `?`: this answers a flag.
        let Some(row) = self.code.row(place) else {
            return false;
        };
        let fresh = rank_of(row, place, self.value, ranks);
        if fresh >= ranks[place] {
            return false;
        }
        ranks[place] = fresh;
        true
    }
}
