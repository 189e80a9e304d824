// What is asked of what is live.
ghost use Rattle.std.specs.Prelude.{◌≡◌, ℕ};
ghost use Rattle.numbers.specs.Sets.{has};
ghost use Rattle.liveness.specs.Found.{before_of, after_of, undefined_in};

use super::Liveness;
use crate::flow::set_at;
use code::FIRST_VALUE;
use numbers::NumberSet;

impl Liveness {
    // The numbers live before the row at a place; none past the last row.
    pub fn before(&self, place: usize) -> NumberSet
        ensures { (v : ℕ) → has result v ≡ before_of self.now place v }
    {
        set_at(&self.before, place)
    }

    // The numbers live after the row at a place; none past the last row.
    pub fn after(&self, place: usize) -> NumberSet
        ensures { (v : ℕ) → has result v ≡ after_of self.now place v }
    {
        set_at(&self.after, place)
    }

    // The lowest value that is live before the first row.
    pub fn first_undefined(&self) -> Option<u16>
        ensures { result ≡ undefined_in self.now }
    {
        // narrows; proved to fit
        self.before(0).next(FIRST_VALUE).map(|value| value as u16)
    }
}
