// A set's single elements.
ghost use Rattle.std.specs.Prelude.{◌≡◌, ℕ, ◌<◌, false, not, ◌&&◌, ◌||◌, if◌then◌else◌, ◌==◌, nat_eq, nat_lt};
ghost use Rattle.numbers.specs.Sets.{has};

use super::NumberSet;

impl NumberSet {
    // Members are below this number.
    pub const LIMIT: usize = 512;

    // The empty set: no number is below 0.
    pub fn new() -> NumberSet
        ensures { (k : ℕ) → has result k ≡ false }
    {
        NumberSet::below(0)
    }

    pub fn contains(&self, n: usize) -> bool
        ensures { result ≡ has self.now n }
    {
        n < Self::LIMIT && self.get(n)
    }

    // Puts n in, or answers false where n is too large for a set.
    // A flag and no Result: all who put a number in know that it fits, and would only drop the refusal.
    pub fn insert(&mut self, n: usize) -> bool
        ensures answer { result ≡ nat_lt n 512 }
        ensures after { (k : ℕ) → has self.new k ≡ (has self.old k || (nat_lt n 512 && k == n)) }
    {
        if n >= Self::LIMIT {
            return false;
        }
        self.put(n, true);
        true
    }

    // Takes n out, if it is there.
    pub fn remove(&mut self, n: usize)
        ensures { (k : ℕ) → has self.new k ≡ (has self.old k && not (k == n)) }
    {
        if n < Self::LIMIT {
            self.put(n, false);
        }
    }

    fn get(&self, n: usize) -> bool
        requires { n < 512 }
        ensures { result ≡ has self.now n }
    {
        (self.words[n / 64] >> (n % 64)) & 1 == 1
    }

    fn put(&mut self, n: usize, there: bool)
        requires { n < 512 }
        ensures { (k : ℕ) → has self.new k ≡ (if nat_eq k n then there else has self.old k) }
    {
        let digit = 1 << (n % 64);
        if there {
            self.words[n / 64] |= digit;
        } else {
            self.words[n / 64] &= !digit;
        }
    }
}

impl Default for NumberSet {
    ghost is_default = { λ set. (k : ℕ) → has set k ≡ false };

    fn default() -> NumberSet {
        NumberSet::new()
    }
}
