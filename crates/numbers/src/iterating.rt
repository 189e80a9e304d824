// Going through a set's members. What says that it ends stands in this file alone.
ghost use Rattle.std.specs.Prelude.{◌≡◌, ◌-◌};
ghost use Rattle.numbers.specs.Iterating.{source, place, Gives};
ghost use Rattle.std.specs.Iterator.{at_most};

use crate::members::Members;
use crate::number_set::NumberSet;

impl NumberSet {
    pub fn iter(&self) -> Members
        ensures set { source result ≡ self.now }
        ensures start { place result ≡ 0 }
    {
        Members {
            set: *self,
            from: 0,
        }
    }
}

impl Iterator for Members {
    type Item = usize;

    ghost next_gives = { λ m r n. Gives m r n };

    ghost remaining = { λ m. at_most (512 - place m) };

    fn next(&mut self) -> Option<usize> {
        let found = self.set.next(self.from);
        if let Some(n) = found {
            self.from = n + 1;
        }
        found
    }
}

impl IntoIterator for &NumberSet {
    type Item = usize;

    type IntoIter = Members;

    ghost into_iter_gives = { λ set members. (source members ≡ set.now) × (place members ≡ 0) };

    fn into_iter(self) -> Members {
        self.iter()
    }
}
