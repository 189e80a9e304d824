use crate::input::Input;
use crate::record::Refused;
use formula::FormulaFault;
use formula::header::read_header;
use std::alloc::AllocError;

// Where the rule was broken, what stands there and what would have been right.
impl Input<'_> {
    pub(crate) fn detail(self, fault: FormulaFault) -> Result<String, AllocError> {
        match fault {
            FormulaFault::Record(fault) => match read_header(self.bytes) {
                Ok(header) => Refused::first(self, header).detail(fault),
                Err(_) => self.header_ends(),
            },
            FormulaFault::OutOfRange { at } => self.out_of_range(at),
            FormulaFault::PaddingSet { at } => self.padding_set(at),
            FormulaFault::BytesRemain { at } => self.bytes_remain(at),
            FormulaFault::LastGoesOn { at } => self.last_goes_on(at),
            FormulaFault::UsedBeforeSet { value } => self.used_before_set(value),
        }
    }

    fn header_ends(self) -> Result<String, AllocError> {
        let len = self.bytes.len();
        format!(in self.heap;
            "its {len} bytes do not hold the header, six bytes and one bit for each value"
        )
    }

    fn out_of_range(self, at: usize) -> Result<String, AllocError> {
        match at {
            0 | 1 => self.bank_out_of_range(at),
            2 => self.count_out_of_range("values", "0 to 96", at),
            _ => self.count_out_of_range("records", "1 to 128", at),
        }
    }

    // A class's number of registers stands at the byte of the class's number.
    fn bank_out_of_range(self, at: usize) -> Result<String, AllocError> {
        let found = self.byte(at);
        format!(in self.heap;
            "the number of registers of class {at}, at byte {at}, is {found} ({found:02X}h); right is 1 to 16"
        )
    }

    fn count_out_of_range(self, field: &str, right: &str, at: usize) -> Result<String, AllocError> {
        let found = self.number(at);
        format!(in self.heap;
            "the number of {field}, at byte {at}, is {found} ({found:04X}h); right is {right}"
        )
    }

    fn padding_set(self, at: usize) -> Result<String, AllocError> {
        let found = self.byte(at);
        let values = self.number(2);
        format!(in self.heap;
            "byte {at}, {found:02X}h, is the last of the class bits; the bits above those of the {values} values must be 0"
        )
    }

    fn bytes_remain(self, at: usize) -> Result<String, AllocError> {
        let found = self.byte(at);
        let more = self.bytes.len().saturating_sub(at).saturating_sub(1);
        let records = self.number(4);
        format!(in self.heap;
            "the {records} records end before byte {at}, {found:02X}h, with {more} more read behind it; the input must end there"
        )
    }

    fn last_goes_on(self, at: usize) -> Result<String, AllocError> {
        let kind = self.byte(at.saturating_add(1));
        let last = self.number(4).saturating_sub(1);
        format!(in self.heap;
            "record {last}, at byte {at}, has kind {kind:02X}h; the last record must be a jump (04h) or an end (07h)"
        )
    }
}
