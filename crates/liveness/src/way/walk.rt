// The walk along falling ranks.
ghost use Rattle.std.specs.Prelude.{◌≡◌, ℕ, ◌+◌, ◌<◌, ◌≤◌, true, take, drop};
ghost use Rattle.code.specs.Codes.{rows_of};
ghost use Rattle.liveness.specs.Flow.{follows};
ghost use Rattle.liveness.specs.Ranks.{rank, Ranked, Level};
ghost use Rattle.liveness.specs.Ways.{Way};

use super::rank::{Distance, rank_at};
use code::Code;

// A row of a lower rank that follows the one at a place.
fn step_down(code: &Code, ranks: &[u16], place: usize) -> usize
    requires within { place < 512 }
    requires lower { (j : ℕ) × (follows (rows_of code.now) place j ≡ true) × (rank ranks.now j < rank ranks.now place) }
    ensures next { follows (rows_of code.now) place result ≡ true }
    ensures lower { rank ranks.now result < rank ranks.now place }
{
    // No `?` here and below: this answers a row in any case.
    let Some(row) = code.row(place) else {
        return place;
    };
    let Some(target) = row.target() else {
        return place + 1;
    };
    let to = usize::from(target);
    if rank_at(ranks, to) < rank_at(ranks, place) {
        return to;
    }
    place + 1
}

impl Distance<'_> {
    // Writes down the rows on a way from the first row; how many there are.
    pub(crate) fn walk(&self, ranks: &[u16; 512], way: &mut [u16; 512]) -> usize
        requires ranked { Ranked (rows_of self.now.code.now) self.now.value ranks.now }
        requires level { (i : ℕ) → Level (rows_of self.now.code.now) self.now.value ranks.now i }
        requires known { rank ranks.now 0 < 512 }
        ensures leads { Way (rows_of self.now.code.now) self.now.value 0 (take result way.new) }
        ensures short { result ≤ rank ranks.now 0 + 1 }
        ensures rest { drop result way.new ≡ drop result way.old }
    {
        let mut place = 0;
        let mut len = 0;
        // It follows the rows from one to the next, and counts no index.
        while rank_at(ranks, place) > 0 {
            // narrows; proved to fit, here and below
            way[len] = place as u16;
            len += 1;
            place = step_down(self.code, ranks, place);
        }
        way[len] = place as u16;
        len + 1
    }
}
