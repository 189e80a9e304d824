ghost use Rattle.std.specs.Prelude.{◌≡◌};
ghost use Rattle.formula.specs.Faults.{number_of, place_of};
ghost use Rattle.formula.specs.declared.fault.FormulaFault.TheVariants.{Record};

use fields::RecordFault;

mod words;

// Why a formula is refused, each with the place that the refusal names.
#[derive(Clone, Copy, PartialEq, Eq, Debug)]
pub enum FormulaFault {
    // a part of the input that is no record, or ends early
    Record(RecordFault),
    // a header field out of range; its first byte
    OutOfRange { at: usize },
    // a padding bit set behind the classes; the byte that holds it
    PaddingSet { at: usize },
    // bytes remain behind the records; the first of them
    BytesRemain { at: usize },
    // the last record is no jump and no end; its first byte
    LastGoesOn { at: usize },
    // a value may be read before any record sets it; the lowest such value, in place of a byte
    UsedBeforeSet { value: u16 },
}

impl From<RecordFault> for FormulaFault {
    ghost from_gives = { λ e r. r ≡ Record e };

    fn from(inner: RecordFault) -> FormulaFault {
        FormulaFault::Record(inner)
    }
}

impl FormulaFault {
    // The refusal's number.
    // No `From`: a fault has two numbers, this one and its place.
    pub fn number(self) -> u8
        ensures { result ≡ number_of self }
    {
        match self {
            FormulaFault::Record(fault) => fault.number(),
            FormulaFault::OutOfRange { .. } => 4,
            FormulaFault::PaddingSet { .. } => 5,
            FormulaFault::BytesRemain { .. } => 10,
            FormulaFault::LastGoesOn { .. } => 11,
            FormulaFault::UsedBeforeSet { .. } => 12,
        }
    }

    // The place that the refusal names: a byte or, for a value used before it is set, that value.
    pub fn place(self) -> usize
        ensures { result ≡ place_of self }
    {
        match self {
            FormulaFault::Record(fault) => fault.place(),
            FormulaFault::OutOfRange { at }
            | FormulaFault::BytesRemain { at }
            | FormulaFault::LastGoesOn { at }
            | FormulaFault::PaddingSet { at } => at,
            FormulaFault::UsedBeforeSet { value } => usize::from(value),
        }
    }
}
