ghost use Rattle.std.specs.Prelude.{◌≡◌, ℕ, ◌<◌, length};
ghost use Rattle.board.specs.Rows.{row_has, spread_to, rows_merged};
ghost use Rattle.numbers.specs.Sets.{has};

use numbers::NumberSet;

// The neighbours of 512 vertices: a row of numbers for each.
#[derive(Clone, Copy)]
pub(crate) struct Rows {
    // an array, since the library takes no heap
    sets: [NumberSet; 512],
    ghost whole: { length sets ≡ 512 },
}

impl Rows {
    pub(crate) fn new(sets: [NumberSet; 512]) -> Rows
        ensures { result.sets ≡ sets }
    {
        Rows { sets }
    }

    // The neighbours of u; there are none past the last row.
    pub(crate) fn row(&self, u: usize) -> NumberSet
        ensures { (v : ℕ) → has result v ≡ row_has self.now.sets u v }
    {
        self.sets.get(u).copied().unwrap_or_else(NumberSet::new)
    }

    // The row of `low` takes in that of `high`, and `low` takes the place of `high` in the others.
    pub(crate) fn merge(&mut self, low: usize, high: usize)
        requires { (low < high) × (high < 512) }
        ensures { (u v : ℕ) → row_has self.new.sets u v ≡ rows_merged low high (row_has self.old.sets) u v }
    {
        let gone = self.sets[high];
        let both = self.sets[low].union(&gone);
        self.spread(&gone, low, high);
        self.sets[low] = both;
        self.sets[high] = NumberSet::new();
    }

    // In each row of `gone`, `low` takes the place of `high`.
    fn spread(&mut self, gone: &NumberSet, low: usize, high: usize)
        requires { low < 512 }
        ensures { (u v : ℕ) → row_has self.new.sets u v ≡ spread_to (has gone.now) low high (row_has self.old.sets) u v }
    {
        for w in gone.iter() {
            let mut row = self.sets[w];
            row.remove(high);
            row.insert(low);
            self.sets[w] = row;
        }
    }
}
