ghost use Rattle.kept.specs.Sound.{SoundKept};

use crate::noted::Noted;
use crate::removed::Removed;
use numbers::NumberSet;
use standing::Standing;

mod asking;
mod filling;
mod marking;
mod merging;
mod opening;
mod removing;

// What a session keeps. A temporary is a vertex that holds a value for one row only, so that spilling it again would gain nothing.
#[derive(Clone, Copy)]
pub struct Kept {
    standing: Standing,
    removed: Removed,
    moves: Noted,
    temporaries: NumberSet,
    ghost sound: { ∥ SoundKept standing removed moves temporaries ∥₁ },
}
