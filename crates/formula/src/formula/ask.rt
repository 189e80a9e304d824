ghost use Rattle.std.specs.Prelude.{◌≡◌, nat_lt};
ghost use Rattle.std.specs.List.{slice_get};
ghost use Rattle.code.specs.Codes.{rows_of, moves_in};
ghost use Rattle.formula.specs.Headers.{header_fields};
ghost use Rattle.formula.specs.Outcome.{starts_of};

use super::Formula;
use crate::header::Header;
use code::Code;

impl Formula {
    // The header.
    pub fn header(&self) -> Header
        ensures { result ≡ self.now.header }
    {
        self.header
    }

    // The rows.
    pub fn code(&self) -> &Code
        ensures { result.now ≡ self.now.code }
    {
        &self.code
    }

    // How many records are moves.
    pub fn moves(&self) -> usize
        ensures { result ≡ moves_in (rows_of self.now.code) }
    {
        self.code.moves()
    }

    // Where each record begins, in order.
    fn starts(&self) -> &[usize]
        ensures { result.now ≡ starts_of self.now }
    {
        &self.starts[..usize::from(self.header.records())]
    }

    // Where the record of this number begins.
    pub fn start(&self, number: usize) -> Option<usize>
        ensures { result ≡ slice_get (starts_of self.now) number }
    {
        self.starts().get(number).copied()
    }
}
