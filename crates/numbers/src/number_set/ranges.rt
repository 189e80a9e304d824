// Sets of a run of numbers.
ghost use Rattle.std.specs.Prelude.{◌≡◌, ℕ, ◌+◌, ◌*◌, ◌<◌, ◌&&◌, nat_lt};
ghost use Rattle.numbers.specs.Sets.{has};
ghost use Rattle.numbers.specs.Words.{bit};

use super::NumberSet;
use std::array;

impl NumberSet {
    // The numbers below n, as far as a set holds them.
    pub fn below(n: usize) -> NumberSet
        ensures { (k : ℕ) → has result k ≡ (nat_lt k n && nat_lt k 512) }
    {
        NumberSet {
            words: array::from_fn(|i| word_below(n, i)),
        }
    }
}

// The word at i of the numbers below n.
fn word_below(n: usize, i: usize) -> u64
    requires { i < 8 }
    ensures { (j : ℕ) → j < 64 → bit result j ≡ nat_lt (i * 64 + j) n }
{
    low_digits(n.saturating_sub(i * 64))
}

// A word whose n lowest digits are set.
fn low_digits(n: usize) -> u64
    ensures { (j : ℕ) → j < 64 → bit result j ≡ nat_lt j n }
{
    if n >= 64 {
        return u64::MAX;
    }
    (1 << n) - 1
}
