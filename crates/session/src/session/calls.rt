// The seven calls.
ghost use Rattle.std.specs.Prelude.{◌≡◌, length, replicate, if◌then◌else◌, Decides, nat_lt};
ghost use Rattle.session_laws.specs.Calls.{note as noting, mark as marking, simplify as simplifying, freeze as freezing, push as pushing, merge as merging, colour as colouring_call, marked, simplified, frozen, pushed};
ghost use Rattle.session_laws.specs.Colouring.{register_of};
ghost use Rattle.session_laws.specs.State.{move_at, Emptiable};
ghost use Rattle.kept.specs.Answers.{answer, note_answer, merge_answer, colour_answer, Filled};
ghost use Rattle.kept.specs.Kept.{base_of, state_of};
ghost use Rattle.session.specs.Calls.{Calls};

use super::Session;
use kept::{Merge, Refusal};

impl<G> Session<G> {
    // Notes a pending move from u to v, and answers its number.
    pub fn note(&mut self, u: usize, v: usize) -> Result<usize, Refusal>
        ensures { Calls self.old self.new (noting u v) (note_answer u v result) }
    {
        self.kept.note(u, v)
    }

    // Makes v a temporary, whose group is never pushed.
    pub fn mark(&mut self, v: usize) -> Result<(), Refusal>
        ensures { Calls self.old self.new (marking v) (answer (marked v) result) }
    {
        self.kept.mark(v)
    }

    // Takes v away: it has fewer neighbours than there are registers.
    pub fn simplify(&mut self, v: usize) -> Result<(), Refusal>
        ensures { Calls self.old self.new (simplifying v) (answer (simplified v) result) }
    {
        self.kept.simplify(v)
    }

    // Gives up the pending moves of the group v.
    pub fn freeze(&mut self, v: usize) -> Result<(), Refusal>
        ensures { Calls self.old self.new (freezing v) (answer (frozen v) result) }
    {
        self.kept.freeze(v)
    }

    // Takes v away although no vertex has few neighbours, and gives its moves up.
    pub fn push(&mut self, v: usize) -> Result<(), Refusal>
        ensures { Calls self.old self.new (pushing v) (answer (pushed v) result) }
    {
        self.kept.push(v)
    }

    // Decides the move m. The lent row of marks reads all zero afterwards, unless it is too short.
    pub fn merge(&mut self, m: usize, marks: &mut [u8]) -> Result<Merge, Refusal>
        ensures calls { Calls self.old self.new (merging m (length marks.old)) (merge_answer m (move_at (state_of self.old.kept) m).one (move_at (state_of self.old.kept) m).other result) }
        ensures marks { marks.new ≡ (if nat_lt (length marks.old) 512 then marks.old else replicate (length marks.old) 0) }
    {
        self.kept.merge(m, marks)
    }

    // Writes the register of each vertex into the first 512 bytes of a table: 255 for none.
    pub fn colour(&self, table: &mut [u8]) -> Result<(), Refusal>
        ensures calls { Calls self.now self.now (colouring_call (length table.old)) (colour_answer (register_of (base_of self.now.kept) (state_of self.now.kept)) result) }
        ensures table { Filled (register_of (base_of self.now.kept) (state_of self.now.kept)) table.old table.new result }
    {
        self.kept.colour(table)
    }

    // Whether the standing graph can be emptied: whether its vertices that are not fixed have an order in which each is joined to fewer
    // than there are registers that are fixed or later.
    pub fn can_be_emptied(&self) -> bool
        ensures { Decides result (Emptiable (base_of self.now.kept) (state_of self.now.kept)) }
    {
        self.kept.can_be_emptied()
    }
}
