ghost use Rattle.std.specs.Prelude.{◌≡◌, ◌≤◌, Bool, ◌&&◌, [], ◌∷◌, ◌++◌, is_ok, is_some, IfSome, if◌then◌else◌, nat_le};
ghost use Rattle.code.specs.Codes.{rows_of, takes, admits};
ghost use Rattle.code.specs.Fits.{row_fits, below};
ghost use Rattle.code.specs.Rows.{fields};

use super::{Code, MOST_ROWS};
use crate::row::Row;

// A field that is there holds a number below the bound.
fn is_below(bound: usize, field: Option<u16>) -> bool
    ensures { result ≡ below bound field }
{
    field.is_none_or(|number| usize::from(number) < bound)
}

// Whether the row keeps the bounds of code with so many numbers and so many rows.
fn keeps_bounds(numbers: usize, reach: usize, row: Row) -> bool
    ensures { result ≡ row_fits numbers reach row }
{
    let others = is_below(numbers, row.first_source())
        & (is_below(numbers, row.second_source()) & is_below(reach, row.target()));
    is_below(numbers, row.destination()) & others
}

// Why a row is refused.
#[derive(Clone, Copy, PartialEq, Eq, Debug)]
pub enum Refused {
    // there are as many rows as there may be
    Full,
    // a number or the target is not below its bound
    OutOfBounds,
}

impl Code {
    // Code with no rows yet; refused when a bound is above 512.
    pub fn new(numbers: usize, reach: usize) -> Option<Code>
        ensures granted { is_some result ≡ (nat_le numbers 512 && nat_le reach 512) }
        ensures made { IfSome result (λ c. (rows_of c ≡ []) × (c.reach ≡ reach) × (c.numbers ≡ numbers)) }
    {
        if numbers > MOST_ROWS {
            return None;
        }
        if reach > MOST_ROWS {
            return None;
        }
        Some(Code {
            rows: [Row::End; 512],
            len: 0,
            reach,
            numbers,
        })
    }

    // Whether one row more is taken.
    fn admit(&self, row: Row) -> Result<(), Refused>
        ensures { result ≡ admits self.now row }
    {
        if self.len >= self.reach {
            return Err(Refused::Full);
        }
        if !keeps_bounds(self.numbers, self.reach, row) {
            return Err(Refused::OutOfBounds);
        }
        Ok(())
    }

    // One row more; refused, and nothing changed, where there is no room or the row does not keep the bounds.
    pub fn push(&mut self, row: Row) -> Result<(), Refused>
        ensures granted { is_ok result ≡ takes self.old row }
        ensures answer { result ≡ admits self.old row }
        ensures rows { rows_of self.new ≡ (if is_ok result then rows_of self.old ++ (fields row ∷ []) else rows_of self.old) }
        ensures reach { self.new.reach ≡ self.old.reach }
        ensures numbers { self.new.numbers ≡ self.old.numbers }
    {
        self.admit(row)?;
        self.rows[self.len] = row;
        self.len += 1;
        Ok(())
    }
}
