use crate::input::Input;
use formula::read_written;
use liveness::find_way;
use std::alloc::AllocError;

impl Input<'_> {
    // How many records there are on a shortest way to one that reads the value before any sets it.
    fn way_to(self, value: u16, way: &mut [u16; 512]) -> Option<usize> {
        let formula = read_written(self.bytes).ok()?;
        find_way(formula.code(), value, way)
    }

    // The record that reads the value first, and the way there from the first record.
    pub(crate) fn used_before_set(self, value: u16) -> Result<String, AllocError> {
        // lent to the walk, which writes the way into it and answers its length
        let mut way = [0; 512];
        let count = self.way_to(value, &mut way).unwrap_or(0);
        let numbers = way.get(..count).unwrap_or(&[]);
        let reader = numbers.last().copied().unwrap_or(0);
        let through = self.listed(numbers)?;
        format!(in self.heap;
            "record {reader} reads value {value}, which no record has set on the way through records{through}"
        )
    }

    // The numbers, each behind a blank.
    fn listed(self, numbers: &[u16]) -> Result<String, AllocError> {
        let mut text = String::new(self.heap);
        for number in numbers {
            write!(text, " {number}")?;
        }
        Ok(text)
    }
}
