// Calls that note something and change no graph.
ghost use Rattle.session_laws.specs.Calls.{note as noting, mark as marking, marked};
ghost use Rattle.kept.specs.Answers.{answer, note_answer};
ghost use Rattle.kept.specs.Kept.{ByRules};

use super::Kept;
use crate::refusal::Refusal;

impl Kept {
    // Notes a pending move from u to v, and answers its number.
    pub fn note(&mut self, u: usize, v: usize) -> Result<usize, Refusal>
        ensures { ByRules self.old self.new (noting u v) (note_answer u v result) }
    {
        let n = self.standing.size();
        if u >= n || v >= n {
            return Err(Refusal::NoSuch);
        }
        if !self.standing.stands(u) || !self.standing.stands(v) {
            return Err(Refusal::NotStanding);
        }
        self.moves.push(u, v)
    }

    // Makes v a temporary, whose group is never pushed.
    pub fn mark(&mut self, v: usize) -> Result<(), Refusal>
        ensures { ByRules self.old self.new (marking v) (answer (marked v) result) }
    {
        self.verdict(v, true)?;
        self.temporaries.insert(v);
        Ok(())
    }
}
