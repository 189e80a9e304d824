// Sets of the numbers that pass a test.
ghost use Rattle.std.specs.Prelude.{◌≡◌, ℕ, ◌<◌, false, min};
ghost use Rattle.numbers.specs.Picking.{Picks};
ghost use Rattle.numbers.specs.Sets.{has};

use super::NumberSet;

impl NumberSet {
    // The numbers below n that pass, as far as a set holds them.
    // It stands for `collect`, which takes an allocator and may fail.
    pub fn of<F: Fn(usize) -> bool>(n: usize, passes: F) -> NumberSet
        requires { (k : ℕ) → k < min n 512 → F.pre passes k }
        ensures { Picks (F.post passes) (min n 512) (has result) }
    {
        let mut set = NumberSet::new();
        for k in 0..n.min(Self::LIMIT) {
            if passes(k) {
                set.insert(k);
            }
        }
        set
    }
}
