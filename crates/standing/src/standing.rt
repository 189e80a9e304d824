ghost use Rattle.standing.specs.Sound.{SoundStanding};

use board::Board;
use numbers::NumberSet;

mod asking;
mod changing;
mod emptying;
mod testing;

// The groups that are not yet removed, in `left`. A bank is a run of registers: `first` is its first, and there are `registers` of them.
// Fixed vertices are the registers of the bank that stand. Loose ones are all others.
#[derive(Clone, Copy)]
pub struct Standing {
    board: Board,
    first: usize,
    registers: usize,
    left: NumberSet,
    ghost sound: { ∥ SoundStanding board first registers left ∥₁ },
}
