// The way from the first row.
ghost use Rattle.std.specs.Prelude.{◌≡◌, ◌≤◌, take, drop, IfSome, MatchOption};
ghost use Rattle.code.specs.Codes.{rows_of};
ghost use Rattle.liveness.specs.Live.{LiveBefore};
ghost use Rattle.liveness.specs.Ways.{Shortest};

use super::rank::{Distance, NO_WAY, rank_at};
use crate::sweep::settle;
use code::Code;

// Writes down a shortest way from the first row to one that reads the value, no row before that one setting it; how many rows it has.
// Where there is none, nothing is written. Which of several shortest ways it is, is left open.
// It is public and promises this of a lent array; a slice of it is made by whoever wants one.
pub fn find_way(code: &Code, value: u16, way: &mut [u16; 512]) -> Option<usize>
    ensures found { MatchOption result (LiveBefore (rows_of code.now) 0 value → ⊥) (λ n. Shortest (rows_of code.now) value (take n way.new)) }
    ensures within { IfSome result (λ n. n ≤ 512) }
    ensures rest { MatchOption result (way.new ≡ way.old) (λ n. drop n way.new ≡ drop n way.old) }
{
    let distance = Distance { code, value };
    let mut ranks = [NO_WAY; 512];
    settle(&distance, &mut ranks);
    if rank_at(&ranks, 0) >= NO_WAY {
        return None;
    }
    Some(distance.walk(&ranks, way))
}
