// Calls that take a vertex away or give its moves up.
ghost use Rattle.session_laws.specs.Calls.{simplify as simplifying, freeze as freezing, push as pushing, simplified, frozen, pushed};
ghost use Rattle.kept.specs.Answers.{answer};
ghost use Rattle.kept.specs.Kept.{ByRules};

use super::Kept;
use crate::refusal::Refusal;

impl Kept {
    // Takes v away: it has fewer neighbours than there are registers, so one will be left for it.
    pub fn simplify(&mut self, v: usize) -> Result<(), Refusal>
        ensures { ByRules self.old self.new (simplifying v) (answer (simplified v) result) }
    {
        self.verdict(v, self.may_simplify(v))?;
        self.removed.push(v);
        self.standing.remove(v);
        Ok(())
    }

    // Gives up the pending moves of the group v.
    pub fn freeze(&mut self, v: usize) -> Result<(), Refusal>
        ensures { ByRules self.old self.new (freezing v) (answer (frozen v) result) }
    {
        self.verdict(v, self.may_freeze(v))?;
        self.moves.close_all(&self.standing, v);
        Ok(())
    }

    // Takes v away although no vertex has few neighbours, and gives its moves up: a register may be missing for it.
    pub fn push(&mut self, v: usize) -> Result<(), Refusal>
        ensures { ByRules self.old self.new (pushing v) (answer (pushed v) result) }
    {
        self.verdict(v, self.may_push(v))?;
        self.moves.close_all(&self.standing, v);
        self.removed.push(v);
        self.standing.remove(v);
        Ok(())
    }
}
