// What the calls ask before they are granted.
ghost use Rattle.std.specs.Prelude.{◌≡◌, ℕ, ◌<◌, not, ◌&&◌, if◌then◌else◌, Decides};
ghost use Rattle.session_laws.specs.Calls.{refused, Outcome};
ghost use Rattle.session_laws.specs.Base.{fixed};
ghost use Rattle.session_laws.specs.Outcomes.{at_vertex, low_degree, some_loose};
ghost use Rattle.session_laws.specs.State.{has_pending, holds_temporary, Emptiable};
ghost use Rattle.kept.specs.Answers.{answer};
ghost use Rattle.kept.specs.Kept.{base_of, state_of};

use super::Kept;
use crate::refusal::Refusal;

impl Kept {
    // Whether the standing graph can be emptied: whether its vertices that are not fixed have an order in which each is joined to fewer
    // than there are registers that are fixed or later.
    pub fn can_be_emptied(&self) -> bool
        ensures { Decides result (Emptiable (base_of self.now) (state_of self.now)) }
    {
        self.standing.can_be_emptied()
    }

    pub(crate) fn is_fixed(&self, v: usize) -> bool
        ensures { result ≡ fixed (base_of self.now) v }
    {
        self.standing.is_fixed(v)
    }

    // Whether v has fewer neighbours than there are registers.
    pub(crate) fn is_light(&self, v: usize) -> bool
        ensures { result ≡ low_degree (base_of self.now) (state_of self.now) v }
    {
        self.standing.is_light(v)
    }

    // Whether some vertex that is not fixed has fewer neighbours than there are registers.
    pub(crate) fn any_light(&self) -> bool
        ensures { result ≡ some_loose (base_of self.now) (state_of self.now) (low_degree (base_of self.now) (state_of self.now)) }
    {
        self.standing.any_light()
    }

    pub(crate) fn may_simplify(&self, v: usize) -> bool
        ensures { result ≡ ((not (fixed (base_of self.now) v) && low_degree (base_of self.now) (state_of self.now) v) && not (has_pending (state_of self.now) v)) }
    {
        !self.is_fixed(v) && self.is_light(v) && !self.has_pending(v)
    }

    pub(crate) fn may_freeze(&self, v: usize) -> bool
        ensures { result ≡ ((not (fixed (base_of self.now) v) && low_degree (base_of self.now) (state_of self.now) v) && has_pending (state_of self.now) v) }
    {
        !self.is_fixed(v) && self.is_light(v) && self.has_pending(v)
    }

    pub(crate) fn may_push(&self, v: usize) -> bool
        ensures { result ≡ ((not (fixed (base_of self.now) v) && not (some_loose (base_of self.now) (state_of self.now) (low_degree (base_of self.now) (state_of self.now)))) && not (holds_temporary (base_of self.now) (state_of self.now) v)) }
    {
        !self.is_fixed(v) && !self.any_light() && !self.holds_temporary(v)
    }

    // A call that names a vertex: the number is checked, then whether it stands, then the condition of the call.
    pub(crate) fn verdict(&self, v: usize, granted: bool) -> Result<(), Refusal>
        ensures { (o : Outcome) → answer o result ≡ at_vertex (base_of self.now) (state_of self.now) v (if granted then o else refused 17) }
    {
        if v >= self.standing.size() {
            return Err(Refusal::NoSuch);
        }
        if !self.standing.stands(v) {
            return Err(Refusal::NotStanding);
        }
        if granted {
            Ok(())
        } else {
            Err(Refusal::NotMet)
        }
    }

    // Whether the group v has a pending move.
    pub(crate) fn has_pending(&self, v: usize) -> bool
        ensures { result ≡ has_pending (state_of self.now) v }
    {
        self.moves
            .as_slice()
            .iter()
            .any(|m| m.waits(&self.standing, v))
    }

    // Whether a member of the group v is a temporary.
    pub(crate) fn holds_temporary(&self, v: usize) -> bool
        ensures { result ≡ holds_temporary (base_of self.now) (state_of self.now) v }
    {
        (0..self.standing.size()).any(|w| self.temporaries.contains(w)
            && self.standing.group(w) == v)
    }
}
