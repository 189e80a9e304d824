// Numbers that pass a test: how many there are, and the first. The caller says which pass, by a p that its test answers by.
ghost use Rattle.std.specs.Prelude.{◌≡◌, ℕ, ◌-◌, Bool};
ghost use Rattle.graph.specs.Counting.{count, first};

// How many numbers below n pass.
pub fn count_passing<F: Fn(usize) -> bool>(n: usize, passes: F) -> usize
    requires { F.IsAlwaysCallable passes }
    ensures { (p : ℕ → Bool) → ((k : ℕ) (b : Bool) → F.post passes k b → b ≡ p k) → result ≡ count p n }
{
    (0..n).filter(|k| passes(*k)).count()
}

// The lowest number below n, not below `from`, that passes.
pub fn first_passing<F: Fn(usize) -> bool>(from: usize, n: usize, passes: F) -> Option<usize>
    requires { F.IsAlwaysCallable passes }
    ensures { (p : ℕ → Bool) → ((k : ℕ) (b : Bool) → F.post passes k b → b ≡ p k) → result ≡ first p from (n - from) }
{
    (from..n).find(|k| passes(*k))
}
