ghost use Rattle.std.specs.Prelude.{◌≡◌, true, IfSome, take};
ghost use Rattle.std.specs.Option.{option_map};
ghost use Rattle.std.specs.List.{slice_get};
ghost use Rattle.code.specs.Codes.{rows_of, moves_in};
ghost use Rattle.code.specs.Fits.{row_fits};
ghost use Rattle.code.specs.Rows.{fields};

use super::Code;
use crate::row::Row;

impl Code {
    // The rows that are there.
    fn rows(&self) -> &[Row]
        ensures { result.now ≡ take self.now.len self.now.rows }
    {
        &self.rows[..self.len]
    }

    // The row at a place, where there is one.
    pub fn row(&self, place: usize) -> Option<Row>
        ensures value { option_map fields result ≡ slice_get (rows_of self.now) place }
        ensures bound { IfSome result (λ row. row_fits self.now.numbers self.now.reach row ≡ true) }
    {
        self.rows().get(place).copied()
    }

    // How many rows are moves.
    pub fn moves(&self) -> usize
        ensures { result ≡ moves_in (rows_of self.now) }
    {
        self.rows().iter().filter(|row| row.is_move()).count()
    }
}
