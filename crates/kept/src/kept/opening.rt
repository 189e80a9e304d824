ghost use Rattle.std.specs.Prelude.{◌≡◌};
ghost use Rattle.session_laws.specs.State.{opened};
ghost use Rattle.standing.specs.Standing.{base_of as base_under};
ghost use Rattle.kept.specs.Kept.{base_of, state_of};
ghost use Rattle.kept.specs.Sound.{Fresh};

use super::Kept;
use crate::noted::Noted;
use crate::removed::Removed;
use numbers::NumberSet;
use standing::Standing;

impl Kept {
    // A session in which nothing has been called yet.
    pub fn new(standing: Standing) -> Kept
        requires { Fresh standing }
        ensures base { base_of result ≡ base_under standing }
        ensures state { state_of result ≡ opened }
    {
        Kept {
            standing,
            removed: Removed::new(),
            moves: Noted::new(),
            temporaries: NumberSet::new(),
        }
    }
}
