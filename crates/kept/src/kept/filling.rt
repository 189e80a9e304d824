// Giving out the registers at the end.
ghost use Rattle.std.specs.Prelude.{length};
ghost use Rattle.session_laws.specs.Calls.{colour as colouring_call};
ghost use Rattle.session_laws.specs.Colouring.{register_of};
ghost use Rattle.kept.specs.Answers.{colour_answer, Filled};
ghost use Rattle.kept.specs.Kept.{base_of, state_of, ByRules};

use super::Kept;
use crate::refusal::Refusal;
use colouring::{fill, paint};

impl Kept {
    // Writes the register of each vertex into the first 512 bytes of a table: 255 for none.
    pub fn colour(&self, table: &mut [u8]) -> Result<(), Refusal>
        ensures rules { ByRules self.now self.now (colouring_call (length table.old)) (colour_answer (register_of (base_of self.now) (state_of self.now)) result) }
        ensures table { Filled (register_of (base_of self.now) (state_of self.now)) table.old table.new result }
    {
        if table.len() < 512 {
            return Err(Refusal::Short);
        }
        if self.standing.any_loose() {
            return Err(Refusal::TooEarly);
        }
        let groups = paint(&self.standing, &self.removed.groups, self.removed.top);
        fill(&self.standing, &groups, table);
        Ok(())
    }
}
