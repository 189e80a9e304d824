// Opening a table, and the calls that it answers as a graph.
ghost use Rattle.std.specs.Prelude.{◌≡◌, ◌/◌, length, replicate, Ok};
ghost use Rattle.std.specs.Borrow.{sem, RestsIfErr, Array, u32};
ghost use Rattle.graph.specs.Joining.{join_meaning};
ghost use Rattle.graph.specs.Stores.{empty_store, Opened};
ghost use Rattle.edges.specs.Table.{slot_at, landing, table_meaning, table_opening, NewTable};
ghost use Rattle.edges.specs.Lawful.{table_lawful};

use crate::edge_table::EdgeTable;
use crate::probing::{finds, key_of, slot_for};
use graph::Graph;
use graph::opening::{OpeningRefusal, check_opening};
use graph::pair::{Pair, judge};
use graph::refusal::Refusal;

impl<'a> EdgeTable<'a> {
    // Whether a table of n vertices can be opened over this memory.
    pub fn check(n: usize, memory: &[u32]) -> Result<(), OpeningRefusal>
        ensures { result ≡ table_opening n (length memory.now) }
    {
        check_opening(n, memory.len() >= 2)
    }

    // A table without pairs, whatever lay in the memory.
    pub fn open(n: usize, memory: &'a mut [u32]) -> EdgeTable<'a>
        requires { table_opening n (length memory.old) ≡ Ok tt }
        ensures size { result.n ≡ n }
        ensures words { result.words.now ≡ replicate (length memory.old) 0 }
        ensures same { result.words.ghost_name ≡ memory.entry.ghost_name }
        ensures empty { table_meaning result.n result.words.now ≡ empty_store n (length memory.old / 2) }
    {
        memory.fill(0);
        EdgeTable {
            n,
            used: 0,
            words: memory,
        }
    }

    // `open`, for `try_open`: the proof of that is by hand and follows its steps, and what is handed on is shown here.
    fn granted(n: usize, memory: &'a mut [u32]) -> EdgeTable<'a>
        requires { table_opening n (length memory.old) ≡ Ok tt }
        ensures size { result.n ≡ n }
        ensures words { result.words.now ≡ replicate (length memory.old) 0 }
        ensures same { result.words.ghost_name ≡ memory.entry.ghost_name }
        ensures empty { table_meaning result.n result.words.now ≡ empty_store n (length memory.old / 2) }
    {
        EdgeTable::open(n, memory)
    }

    // The same where the check grants it, so that the caller owes nothing; a refusal leaves the memory as it was. That is a clause on a loan,
    // whose proof is written by hand and follows these lines. Each store has its own: a trait with a lifetime may not give its functions a
    // body yet.
    pub fn try_open(n: usize, memory: &'a mut [u32]) -> Result<EdgeTable<'a>, OpeningRefusal>
        ensures* unchanged { sem 𝓛 (RestsIfErr (Array u32 0) memory.entry (λ store. store.words.ghost_name) result (λ last. last ≡ memory.old)) }
        ensures opened { Opened (λ store. NewTable n memory.old memory.entry.ghost_name store.n store.words.now store.words.ghost_name) (table_opening n (length memory.old)) result }
    {
        match EdgeTable::check(n, memory) {
            Ok(()) => Ok(EdgeTable::granted(n, memory)),
            Err(refusal) => Err(refusal),
        }
    }

    // The slot in which the word or an empty slot is met.
    fn slot(&self, word: u32) -> usize
        ensures { result ≡ slot_at self.now.words.now word (landing self.now.words.now word) }
    {
        slot_for(self.words, word)
    }
}

impl Graph for EdgeTable<'_> {
    ghost means = { λ g. table_meaning g.n g.words.now };

    ghost lawful = { λ g. table_lawful g.n g.words.now g.size.0 g.size.1 };

    ghost leaves = { λ g u v after. (after.n ≡ g.n) × (after.words.ghost_name ≡ g.words.ghost_name) × (length after.words.now ≡ length g.words.now) × (table_meaning after.n after.words.now ≡ join_meaning (table_meaning g.n g.words.now) u v) };

    ghost joins = { λ g u v after k. k.3 };

    fn size(&self) -> usize {
        self.n
    }

    fn stands(&self, v: usize) -> bool {
        v < self.n
    }

    fn joined(&self, u: usize, v: usize) -> bool {
        if (u >= self.n) | (v >= self.n) | (u == v) {
            return false;
        }
        finds(self.words, key_of(u, v))
    }

    fn join(&mut self, u: usize, v: usize) -> Result<(), Refusal> {
        let n = self.n;
        match judge(n, u, v, (u < n) & (v < n), self.joined(u, v))? {
            Pair::Present => Ok(()),
            Pair::Fresh => {
                if self.used >= self.words.len() / 2 {
                    return Err(Refusal::Full);
                }
                let word = key_of(u, v);
                let slot = self.slot(word);
                self.words[slot] = word;
                self.used += 1;
                Ok(())
            }
        }
    }
}
