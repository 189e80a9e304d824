ghost use Rattle.std.specs.Prelude.{◌≡◌};
ghost use Rattle.board.specs.Boards.{table_of};
ghost use Rattle.kept.specs.Kept.{base_of, state_of};
ghost use Rattle.session_laws.specs.Bank.{first_of};
ghost use Rattle.session_laws.specs.Base.{SoundBase};
ghost use Rattle.session_laws.specs.State.{opened};
ghost use Rattle.standing.specs.Sound.{base_over};

use crate::bank::Bank;
use board::Board;
use kept::Kept;
use standing::Standing;

// A session over a board in which nothing is merged.
pub(crate) fn start(board: Board, bank: Bank) -> Kept
    requires { (SoundBase (base_over board (first_of bank.class) bank.registers)) × (table_of board ≡ (λ v. v)) }
    ensures base { base_of result ≡ base_over board (first_of bank.class) bank.registers }
    ensures state { state_of result ≡ opened }
{
    Kept::new(Standing::new(board, bank.first(), bank.registers()))
}
