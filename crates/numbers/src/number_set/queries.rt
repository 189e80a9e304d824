// What a set holds, asked word by word.
ghost use Rattle.std.specs.Prelude.{◌≡◌, ℕ, ◌+◌, ◌-◌, ◌*◌, ◌/◌, ◌<◌, ◌≤◌, true, false, length, sum_by, IfSome, IfNone};
ghost use Rattle.numbers.specs.Counting.{count, first};
ghost use Rattle.numbers.specs.Sets.{has};
ghost use Rattle.numbers.specs.Words.{bit};

use super::NumberSet;

impl NumberSet {
    pub fn is_empty(&self) -> bool
        ensures none { result ≡ true → (k : ℕ) → has self.now k ≡ false }
        ensures some { result ≡ false → (k : ℕ) × (has self.now k ≡ true) }
    {
        self.next(0).is_none()
    }

    // How many members there are.
    pub fn len(&self) -> usize
        ensures value { result ≡ count (has self.now) 512 }
        ensures bound { result ≤ 512 }
    {
        digits_in_all(&self.words)
    }

    // The lowest member that is not below `from`.
    // It goes from word to word: a chain over the numbers would go from digit to digit.
    pub fn next(&self, from: usize) -> Option<usize>
        ensures value { result ≡ first (has self.now) from (512 - from) }
        ensures none { IfNone result ((k : ℕ) → from ≤ k → has self.now k ≡ false) }
        ensures some { IfSome result (λ n. (from ≤ n) × (n < 512) × (has self.now n ≡ true) × ((k : ℕ) → from ≤ k → k < n → has self.now k ≡ false)) }
    {
        let mut at = from;
        while at < Self::LIMIT {
            if let Some(n) = self.next_in_word(at) {
                return Some(n);
            }
            at = (at / 64 + 1) * 64;
        }
        None
    }

    // The lowest member from `from` on among those in its own word.
    fn next_in_word(&self, from: usize) -> Option<usize>
        requires { from < 512 }
        ensures none { IfNone result ((k : ℕ) → from ≤ k → k < (from / 64 + 1) * 64 → has self.now k ≡ false) }
        ensures some { IfSome result (λ n. (from ≤ n) × (n < 512) × (has self.now n ≡ true) × ((k : ℕ) → from ≤ k → k < n → has self.now k ≡ false)) }
    {
        let rest = self.words[from / 64] >> (from % 64);
        if rest == 0 {
            return None;
        }
        // as in `digits_in`
        Some(from + rest.trailing_zeros() as usize)
    }
}

// How many digits of a few words are set.
fn digits_in_all(words: &[u64]) -> usize
    requires { length words.now ≤ 8 }
    ensures { result ≡ sum_by (λ w. count (bit w) 64) words.now }
{
    words.iter().map(|w| digits_in(*w)).sum()
}

// How many digits of a word are set.
fn digits_in(word: u64) -> usize
    ensures value { result ≡ count (bit word) 64 }
    ensures bound { result ≤ 64 }
{
    // Rust has no `From<u32>` for `usize`; proved to fit
    word.count_ones() as usize
}
