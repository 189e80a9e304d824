// Backward sweeps over a table with one fact for each row, until nothing changes.
ghost use Rattle.std.specs.Prelude.{◌≡◌, ℕ, ◌<◌, ◌≤◌, true, false, List};

// What the rows of code ask of the facts that stand for them.
pub(crate) trait Rule {
    type Fact;

    ghost rows: { Self → ℕ };

    // What holds of every table that a sweep begins with or comes to.
    ghost sound: { Self → List Self.Fact → Type 0 };

    // That the row at a place asks for nothing more.
    ghost settled: { Self → List Self.Fact → ℕ → Type 0 };

    // How much may still change.
    ghost left: { Self → List Self.Fact → ℕ };

    // How many rows there are.
    fn rows(&self) -> usize
        ensures value { result ≡ rows self.now }
        ensures few { result ≤ 512 };

    // Gives the row at a place what it asks for; whether that was something new.
    fn improve(&self, facts: &mut [Self::Fact; 512], place: usize) -> bool
        requires within { place < 512 }
        requires sound { sound self.now facts.old }
        ensures sound { sound self.now facts.new }
        ensures still { result ≡ false → facts.new ≡ facts.old }
        ensures settled { result ≡ false → settled self.now facts.old place }
        ensures less { result ≡ true → left self.now facts.new < left self.now facts.old };
}

// One sweep from the last row to the first; whether it changed anything.
fn sweep<R: Rule>(rule: &R, facts: &mut [R::Fact; 512]) -> bool
    requires { R.sound rule.now facts.old }
    ensures sound { R.sound rule.now facts.new }
    ensures settled { result ≡ false → (i : ℕ) → i < R.rows rule.now → R.settled rule.now facts.new i }
    ensures less { result ≡ true → R.left rule.now facts.new < R.left rule.now facts.old }
{
    let mut changed = false;
    // By number: a turn writes the table that the next ones read.
    for place in (0..rule.rows()).rev() {
        changed = rule.improve(facts, place) | changed;
    }
    changed
}

// Sweeps until one changes nothing.
pub(crate) fn settle<R: Rule>(rule: &R, facts: &mut [R::Fact; 512])
    requires { R.sound rule.now facts.old }
    ensures sound { R.sound rule.now facts.new }
    ensures settled { (i : ℕ) → i < R.rows rule.now → R.settled rule.now facts.new i }
{
    while sweep(rule, facts) {}
}
