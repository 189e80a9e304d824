// A table opened anew over the memory that it has.
ghost use Rattle.std.specs.Prelude.{length};
ghost use Rattle.edges.specs.Table.{half_of, two_slots};

use crate::edge_table::EdgeTable;
use graph::opening::OpeningRefusal;
use graph::store::{Renewable, Store};

impl Store for EdgeTable<'_> {
    ghost holds = { λ g. two_slots (length g.words.now) };

    ghost room = { λ g. half_of (length g.words.now) };

    fn check_anew(&self, n: usize) -> Result<(), OpeningRefusal> {
        EdgeTable::check(n, self.words)
    }

    fn reopen(self, n: usize) -> Self {
        // No `?`: this answers the store itself.
        let Ok(()) = self.check_anew(n) else {
            return self;
        };
        let EdgeTable {
            n: _,
            used: _,
            words,
        } = self;
        EdgeTable::open(n, words)
    }
}

impl Renewable for EdgeTable<'_> {}
