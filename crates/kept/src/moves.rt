ghost use Rattle.std.specs.Prelude.{◌≡◌};
ghost use Rattle.board.specs.Boards.{table_of};
ghost use Rattle.session_laws.specs.State.{waits as waits_for};
ghost use Rattle.standing.specs.Standing.{board_of};
ghost use Rattle.kept.specs.Moves.{move_of};

use standing::Standing;

// A copy in the program: its ends would best share a register. It is pending until it is decided or given up.
#[derive(Clone, Copy, Debug, Default, PartialEq, Eq)]
pub struct Move {
    pub one: usize,
    pub other: usize,
    pub pending: bool,
}

// What merge answers where it decides a move.
#[derive(Clone, Copy, Debug, PartialEq, Eq)]
pub enum Merge {
    // the ends were in one group before
    Together,
    // the ends can never share a register
    Apart,
    // the groups of the ends are one now
    Merged,
}

impl Move {
    // Whether it is pending and has an end in the group v.
    pub(crate) fn waits(self, standing: &Standing, v: usize) -> bool
        ensures { result ≡ waits_for (table_of (board_of standing.now)) v (move_of self) }
    {
        self.pending && (standing.group(self.one) == v || standing.group(self.other) == v)
    }
}
