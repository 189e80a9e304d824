ghost use Rattle.std.specs.Prelude.{Some};
ghost use Rattle.formula.specs.Words.{rule};

use super::FormulaFault;
use std::error::Error;
use std::fmt;

impl fmt::Display for FormulaFault {
    ghost output = { λ fault. Some (rule fault) };

    fn fmt<W: fmt::Write>(&self, f: &mut fmt::Formatter<W>) -> fmt::Result {
        match self {
            FormulaFault::Record(fault) => fault.fmt(f),
            FormulaFault::OutOfRange { .. } => f.write_str("header field out of range"),
            FormulaFault::PaddingSet { .. } => f.write_str("padding bit set"),
            FormulaFault::BytesRemain { .. } => f.write_str("bytes remain"),
            FormulaFault::LastGoesOn { .. } => f.write_str("the last record goes on"),
            FormulaFault::UsedBeforeSet { .. } => f.write_str("used before it is set"),
        }
    }
}

impl Error for FormulaFault {}
