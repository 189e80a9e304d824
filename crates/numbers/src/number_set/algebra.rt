// Sets made of two sets, word by word.
ghost use Rattle.std.specs.Prelude.{◌≡◌, ℕ, ◌<◌, true, false, not, ◌&&◌, ◌||◌, slice_index};
ghost use Rattle.numbers.specs.Sets.{has};
ghost use Rattle.numbers.specs.Words.{bit};

use super::NumberSet;
use std::array;

impl NumberSet {
    pub fn union(&self, other: &NumberSet) -> NumberSet
        ensures { (k : ℕ) → has result k ≡ (has self.now k || has other.now k) }
    {
        self.combine(other, |a, b| a | b)
    }

    pub fn intersection(&self, other: &NumberSet) -> NumberSet
        ensures { (k : ℕ) → has result k ≡ (has self.now k && has other.now k) }
    {
        self.combine(other, |a, b| a & b)
    }

    // The members that the other set has not.
    pub fn difference(&self, other: &NumberSet) -> NumberSet
        ensures { (k : ℕ) → has result k ≡ (has self.now k && not (has other.now k)) }
    {
        // The closure says digit by digit what it makes, since only where a word is read is it known to have 64 digits.
        self.combine(
            other,
            |a, b| -> u64
                ensures { (j : ℕ) → j < 64 → bit result j ≡ (bit a j && not (bit b j)) }
            { a & !b },
        )
    }

    // Takes in the members of the other set, and answers whether that changed this one.
    // A flag: neither answer is a refusal.
    pub fn absorb(&mut self, other: &NumberSet) -> bool
        ensures after { (k : ℕ) → has self.new k ≡ (has self.old k || has other.now k) }
        ensures grew { result ≡ true → (k : ℕ) × (has self.old k ≡ false) × (has self.new k ≡ true) }
        ensures same { result ≡ false → (k : ℕ) → has self.new k ≡ has self.old k }
    {
        let fresh = other.difference(self);
        *self = self.union(other);
        !fresh.is_empty()
    }

    // The set whose words are f of the words of two sets.
    fn combine<F: Fn(u64, u64) -> u64>(&self, other: &NumberSet, f: F) -> NumberSet
        requires { F.IsAlwaysCallable f }
        ensures { (i : ℕ) → i < 8 → F.post f (slice_index self.now.words i) (slice_index other.now.words i) (slice_index result.words i) }
    {
        NumberSet {
            words: array::from_fn(|i| f(self.words[i], other.words[i])),
        }
    }
}
