#![tactic(auto, unfolding(crate::specs::Standing::base_of, crate::specs::Standing::board_of, crate::specs::Standing::is_left))]

// Opening, removing, merging.
ghost use Rattle.std.specs.Prelude.{◌≡◌, ℕ, not, ◌&&◌, ◌==◌};
ghost use Rattle.session_laws.specs.Base.{SoundBase};
ghost use Rattle.session_laws.specs.Runs.{united};
ghost use Rattle.board.specs.Boards.{opened_graph, table_of, TwoGroups};
ghost use Rattle.standing.specs.Sound.{base_over};
ghost use Rattle.standing.specs.Standing.{graph_of, base_of, board_of, is_left};

use super::Standing;
use board::Board;

impl Standing {
    pub fn new(board: Board, first: usize, registers: usize) -> Standing
        requires { (SoundBase (base_over board first registers)) × (table_of board ≡ (λ v. v)) }
        ensures base { base_of result ≡ base_over board first registers }
        ensures board { board_of result ≡ board }
        ensures left { (v : ℕ) → is_left result v ≡ (opened_graph board).stands v }
    {
        let left = board.vertices();
        Standing {
            board,
            first,
            registers,
            left,
        }
    }

    // Takes v away.
    pub fn remove(&mut self, v: usize)
        ensures base { base_of self.new ≡ base_of self.old }
        ensures board { board_of self.new ≡ board_of self.old }
        ensures left { (w : ℕ) → is_left self.new w ≡ (is_left self.old w && not (w == v)) }
    {
        self.left.remove(v);
    }

    // The group called `high` goes into the one called `low`.
    pub fn unite(&mut self, low: usize, high: usize)
        requires { TwoGroups (board_of self.old) low high }
        ensures base { base_of self.new ≡ base_of self.old }
        ensures table { table_of (board_of self.new) ≡ united (table_of (board_of self.old)) high low }
        ensures left { (w : ℕ) → is_left self.new w ≡ (is_left self.old w && not (w == high)) }
    {
        self.left.remove(high);
        self.board.unite(low, high);
    }
}
