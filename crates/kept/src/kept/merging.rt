// Deciding a move.
ghost use Rattle.std.specs.Prelude.{◌≡◌, ℕ, ◌≤◌, ◌⊎◌, ◌&&◌, ◌||◌, length, replicate, if◌then◌else◌, nat_lt};
ghost use Rattle.session_laws.specs.Base.{fixed};
ghost use Rattle.session_laws.specs.Calls.{merge as merging, together, apart, merged};
ghost use Rattle.session_laws.specs.Grounds.{GrantedOn};
ghost use Rattle.session_laws.specs.Outcomes.{merge_outcome};
ghost use Rattle.session_laws.specs.Runs.{left_by};
ghost use Rattle.session_laws.specs.State.{move_at, standing_graph};
ghost use Rattle.kept.specs.Answers.{merge_answer, merge_says};
ghost use Rattle.kept.specs.Kept.{base_of, state_of, ByRules};

use super::Kept;
use crate::marks::Marks;
use crate::moves::Merge;
use crate::refusal::Refusal;

impl Kept {
    // Decides the move m: the higher group goes into the lower, if the graph does not get harder to colour by that.
    pub fn merge(&mut self, m: usize, marks: &mut [u8]) -> Result<Merge, Refusal>
        ensures rules { ByRules self.old self.new (merging m (length marks.old)) (merge_answer m (move_at (state_of self.old) m).one (move_at (state_of self.old) m).other result) }
        ensures marks { marks.new ≡ (if nat_lt (length marks.old) 512 then marks.old else replicate (length marks.old) 0) }
    {
        if marks.len() < 512 {
            return Err(Refusal::Short);
        }
        // The rules lend a row of marks. The tests count sets and want none, so the row is only handed back all zero.
        let _lent = Marks(marks);
        let decided = self.settle(m)?;
        self.decide(m, decided);
        Ok(decided)
    }

    // Makes what was decided of the move m true.
    fn decide(&mut self, m: usize, decided: Merge)
        requires { GrantedOn (base_of self.old) (state_of self.old) (merge_says m (move_at (state_of self.old) m).one (move_at (state_of self.old) m).other decided) }
        ensures base { base_of self.new ≡ base_of self.old }
        ensures state { state_of self.new ≡ left_by (state_of self.old) (merge_says m (move_at (state_of self.old) m).one (move_at (state_of self.old) m).other decided) }
    {
        match decided {
            Merge::Together | Merge::Apart => self.close(m),
            Merge::Merged => self.unite(m),
        }
    }

    // What becomes of the move m, where enough marks are lent.
    fn settle(&self, m: usize) -> Result<Merge, Refusal>
        ensures { (lent : ℕ) → 512 ≤ lent → merge_answer m (move_at (state_of self.now) m).one (move_at (state_of self.now) m).other result ≡ merge_outcome (base_of self.now) (state_of self.now) m lent }
    {
        let ends = self.moves.get(m).ok_or(Refusal::NoSuch)?;
        if !ends.pending {
            return Err(Refusal::NotMet);
        }
        let x = self.standing.group(ends.one);
        let y = self.standing.group(ends.other);
        if x == y {
            return Ok(Merge::Together);
        }
        if self.conflict(x, y) {
            return Ok(Merge::Apart);
        }
        if self.standing.may_merge(x, y) {
            Ok(Merge::Merged)
        } else {
            Err(Refusal::NotMet)
        }
    }

    // Whether the groups x and y can never share a register: they are joined, or both are fixed.
    fn conflict(&self, x: usize, y: usize) -> bool
        ensures { result ≡ ((standing_graph (base_of self.now) (state_of self.now)).joined x y || (fixed (base_of self.now) x && fixed (base_of self.now) y)) }
    {
        self.standing.joined(x, y) || self.is_fixed(x) && self.is_fixed(y)
    }

    // Closes the move m, whose ends are in one group or can never be.
    fn close(&mut self, m: usize)
        requires { (GrantedOn (base_of self.old) (state_of self.old) (together m)) ⊎ (GrantedOn (base_of self.old) (state_of self.old) (apart m)) }
        ensures base { base_of self.new ≡ base_of self.old }
        ensures state { state_of self.new ≡ left_by (state_of self.old) (together m) }
    {
        self.moves.close(m);
    }

    // The groups of the ends of the move m become one.
    fn unite(&mut self, m: usize)
        requires { GrantedOn (base_of self.old) (state_of self.old) (merged m (move_at (state_of self.old) m).one (move_at (state_of self.old) m).other) }
        ensures base { base_of self.new ≡ base_of self.old }
        ensures state { state_of self.new ≡ left_by (state_of self.old) (merged m (move_at (state_of self.old) m).one (move_at (state_of self.old) m).other) }
    {
        let ends = self.moves.get(m).unwrap();
        let x = self.standing.group(ends.one);
        let y = self.standing.group(ends.other);
        self.moves.close(m);
        self.standing.unite(x.min(y), x.max(y));
    }
}
