// The sets of what is live before each row, as sweeps fill them.
ghost use Rattle.std.specs.Prelude.{◌≡◌, ℕ, ◌<◌, true, false, length};
ghost use Rattle.code.specs.Codes.{rows_of};
ghost use Rattle.liveness.specs.Families.{Sound, Closed, lacking};

use crate::flow::set_before;
use crate::sweep::Rule;
use code::Code;
use numbers::NumberSet;

impl Rule for Code {
    type Fact = NumberSet;

    ghost rows = { λ code. length (rows_of code) };

    ghost sound = { λ code before. Sound (rows_of code) before };

    ghost settled = { λ code before place. Closed (rows_of code) before place };

    ghost left = { λ code before. lacking before };

    fn rows(&self) -> usize {
        self.len()
    }

    // Adds to the set of one row what is asked for there.
    fn improve(&self, before: &mut [NumberSet; 512], place: usize) -> bool {
        let fresh = set_before(self, before, place);
        let mut set = before[place];
        if !set.absorb(&fresh) {
            return false;
        }
        before[place] = set;
        true
    }
}
