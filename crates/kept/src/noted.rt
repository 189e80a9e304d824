ghost use Rattle.std.specs.Prelude.{◌≡◌, ◌≤◌, length};

use crate::moves::Move;
use crate::refusal::Refusal;
use standing::Standing;

// The moves that were noted: the first `many` of an array, in the order of their numbers.
#[derive(Clone, Copy)]
pub(crate) struct Noted {
    // an array and a count, since the library takes no heap
    moves: [Move; 128],
    many: usize,
    ghost whole: { length moves ≡ 128 },
    ghost few: { many ≤ 128 },
}

#[tactic(auto, unfolding(crate::specs::Moves::moves_in))]
impl Noted {
    ghost use Rattle.std.specs.Prelude.{[], ◌<◌, map, true};
    ghost use Rattle.board.specs.Boards.{table_of};
    ghost use Rattle.standing.specs.Standing.{board_of};
    ghost use Rattle.kept.specs.Moves.{move_of, moves_in, Found, Added, closed_at, closed_of};

    pub(crate) fn new() -> Noted
        ensures { moves_in result ≡ [] }
    {
        Noted {
            moves: [Move::default(); 128],
            many: 0,
        }
    }

    pub(crate) fn as_slice(&self) -> &[Move]
        ensures { map move_of result.now ≡ moves_in self.now }
    {
        &self.moves[..self.many]
    }

    // The move with the number m.
    pub(crate) fn get(&self, m: usize) -> Option<Move>
        ensures { Found (moves_in self.now) m result }
    {
        self.as_slice().get(m).copied()
    }

    // Adds a pending move, and answers its number.
    pub(crate) fn push(&mut self, one: usize, other: usize) -> Result<usize, Refusal>
        ensures { Added (record { one = one; other = other; pending = true }) (moves_in self.old) (moves_in self.new) result }
    {
        let m = self.many;
        if m >= 128 {
            return Err(Refusal::Full);
        }
        self.moves[m] = Move {
            one,
            other,
            pending: true,
        };
        self.many = m + 1;
        Ok(m)
    }

    // The move m is pending no more.
    pub(crate) fn close(&mut self, m: usize)
        requires { m < length (moves_in self.old) }
        ensures { moves_in self.new ≡ closed_at (moves_in self.old) m }
    {
        self.moves[m].pending = false;
    }

    // The moves of the group v are pending no more.
    pub(crate) fn close_all(&mut self, standing: &Standing, v: usize)
        ensures { moves_in self.new ≡ closed_of (table_of (board_of standing.now)) v (moves_in self.old) }
    {
        // by index: a field that stands beside a ghost field cannot be lent to an iterator yet
        for m in 0..self.many {
            self.moves[m].pending &= !self.moves[m].waits(standing, v);
        }
    }
}
