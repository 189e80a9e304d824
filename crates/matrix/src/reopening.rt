// A matrix opened anew over the memory that it has.
ghost use Rattle.std.specs.Prelude.{length};
ghost use Rattle.matrix.specs.Layout.{triangle};
ghost use Rattle.matrix.specs.Matrix.{fits_in};

use crate::bit_matrix::BitMatrix;
use graph::opening::OpeningRefusal;
use graph::store::{Renewable, Store};

impl Store for BitMatrix<'_> {
    ghost holds = { λ g. fits_in (length g.bits.now) };

    ghost room = { λ g. triangle };

    fn check_anew(&self, n: usize) -> Result<(), OpeningRefusal> {
        BitMatrix::check(n, self.bits)
    }

    fn reopen(self, n: usize) -> Self {
        // No `?`: this answers the store itself.
        let Ok(()) = self.check_anew(n) else {
            return self;
        };
        let BitMatrix { n: _, bits } = self;
        BitMatrix::open(n, bits)
    }
}

impl Renewable for BitMatrix<'_> {}
