// Opening a matrix, and the calls that it answers as a graph.
ghost use Rattle.std.specs.Prelude.{◌≡◌, length, Ok};
ghost use Rattle.std.specs.Borrow.{sem, RestsIfErr, Array, u8};
ghost use Rattle.graph.specs.Joining.{join_meaning};
ghost use Rattle.graph.specs.Stores.{empty_store, Opened};
ghost use Rattle.matrix.specs.Layout.{bytes_for, cleared, triangle};
ghost use Rattle.matrix.specs.Matrix.{matrix_meaning, matrix_opening, behind, NewMatrix};
ghost use Rattle.matrix.specs.Lawful.{matrix_lawful};

use crate::bit_matrix::BitMatrix;
use crate::bits::{bytes_needed, cell_of, has_bit, row_start, whole_bytes};
use crate::rows::{first_above, first_between, ones_above, ones_between};
use graph::Graph;
use graph::opening::{OpeningRefusal, check_opening};
use graph::pair::{Pair, judge};
use graph::refusal::Refusal;

impl<'a> BitMatrix<'a> {
    // Whether a matrix of n vertices can be opened over this memory.
    pub fn check(n: usize, memory: &[u8]) -> Result<(), OpeningRefusal>
        ensures { result ≡ matrix_opening n (length memory.now) }
    {
        let needed = bytes_needed(n)?;
        check_opening(n, needed <= memory.len())
    }

    // A matrix without pairs, whatever lay in the memory.
    pub fn open(n: usize, memory: &'a mut [u8]) -> BitMatrix<'a>
        requires { matrix_opening n (length memory.old) ≡ Ok tt }
        ensures size { result.n ≡ n }
        ensures bits { result.bits.now ≡ cleared (bytes_for n) memory.old }
        ensures same { result.bits.ghost_name ≡ memory.entry.ghost_name }
        ensures empty { matrix_meaning result.n result.bits.now ≡ empty_store n (triangle n) }
    {
        memory[..whole_bytes(n)].fill(0);
        BitMatrix { n, bits: memory }
    }

    // `open`, for `try_open`: the proof of that is by hand and follows its steps, and what is handed on is shown here.
    fn granted(n: usize, memory: &'a mut [u8]) -> BitMatrix<'a>
        requires { matrix_opening n (length memory.old) ≡ Ok tt }
        ensures size { result.n ≡ n }
        ensures bits { result.bits.now ≡ cleared (bytes_for n) memory.old }
        ensures same { result.bits.ghost_name ≡ memory.entry.ghost_name }
        ensures empty { matrix_meaning result.n result.bits.now ≡ empty_store n (triangle n) }
    {
        BitMatrix::open(n, memory)
    }

    // The same where the check grants it, so that the caller owes nothing; a refusal leaves the memory as it was. That is a clause on a loan,
    // whose proof is written by hand and follows these lines. Each store has its own: a trait with a lifetime may not give its functions a
    // body yet.
    pub fn try_open(n: usize, memory: &'a mut [u8]) -> Result<BitMatrix<'a>, OpeningRefusal>
        ensures* unchanged { sem 𝓛 (RestsIfErr (Array u8 0) memory.entry (λ store. store.bits.ghost_name) result (λ last. last ≡ memory.old)) }
        ensures opened { Opened (λ store. NewMatrix n memory.old memory.entry.ghost_name store.n store.bits.now store.bits.ghost_name) (matrix_opening n (length memory.old)) result }
    {
        match BitMatrix::check(n, memory) {
            Ok(()) => Ok(BitMatrix::granted(n, memory)),
            Err(refusal) => Err(refusal),
        }
    }
}

impl Graph for BitMatrix<'_> {
    ghost means = { λ g. matrix_meaning g.n g.bits.now };

    ghost lawful = { λ g. matrix_lawful g.n g.bits.now g.room.0 g.room.1 };

    ghost leaves = { λ g u v after. (after.n ≡ g.n) × (after.bits.ghost_name ≡ g.bits.ghost_name) × (behind g.n after.bits.now ≡ behind g.n g.bits.now) × (matrix_meaning after.n after.bits.now ≡ join_meaning (matrix_meaning g.n g.bits.now) u v) };

    ghost joins = { λ g u v after k. k.3 };

    fn size(&self) -> usize {
        self.n
    }

    fn stands(&self, v: usize) -> bool {
        v < self.n
    }

    fn joined(&self, u: usize, v: usize) -> bool {
        if (u >= self.n) | (v >= self.n) | (u == v) {
            return false;
        }
        has_bit(self.bits, cell_of(u, v))
    }

    fn degree(&self, u: usize) -> usize {
        if u >= self.n {
            return 0;
        }
        let row = row_start(u);
        ones_between(self.bits, row, row + u) + ones_above(self.bits, u, self.n)
    }

    fn next(&self, u: usize, from: usize) -> Option<usize> {
        if u >= self.n {
            return None;
        }
        if from < u {
            let row = row_start(u);
            if let Some(place) = first_between(self.bits, row + from, row + u) {
                return Some(place - row);
            }
        }
        first_above(self.bits, u, from.max(u + 1), self.n)
    }

    fn join(&mut self, u: usize, v: usize) -> Result<(), Refusal> {
        let n = self.n;
        match judge(n, u, v, (u < n) & (v < n), self.joined(u, v))? {
            Pair::Present => Ok(()),
            Pair::Fresh => {
                let place = cell_of(u, v);
                self.bits[place / 8] |= 1 << (place % 8);
                Ok(())
            }
        }
    }
}
