#![tactic(auto)]

// What is said of damaged formulas, word by word.
use formula::read_formula;
use std::alloc::{AllocError, Global};
use wording::explain;

// The words for an input, or that it is in order.
fn told(heap: Global, bytes: &[u8]) -> Result<String, AllocError> {
    match read_formula(bytes) {
        Ok(_) => String::from_str(heap, "in order"),
        Err(fault) => explain(heap, bytes, fault),
    }
}

#[cfg(test)]
mod tests {
    use super::*;
    use std::test::Fail;

    #[test]
    fn headers_and_ends(rt: HostRuntime) -> Result<(), Fail> {
        let cases: [(&[u8], &str); 3] = [
            (
                &[1, 17],
                "header field out of range: the number of registers of class 1, at byte 1, is 17 (11h); right is 1 to 16\n",
            ),
            (
                &[1, 1, 1, 0, 1, 0, 2, 0, 7],
                "padding bit set: byte 6, 02h, is the last of the class bits; the bits above those of the 1 values must be 0\n",
            ),
            (
                &[1, 1, 0, 0, 1, 0, 2, 6, 0, 0],
                "the last record goes on: record 0, at byte 6, has kind 06h; the last record must be a jump (04h) or an end (07h)\n",
            ),
        ];
        for (bytes, words) in cases {
            assert_eq!(rt; told(rt.alloc(), bytes)?.as_str(), words);
        }
        Ok(())
    }

    #[test]
    fn records(rt: HostRuntime) -> Result<(), Fail> {
        let cases: [(&[u8], &str); 3] = [
            (
                &[1, 1, 1, 0, 2, 0, 0, 3, 16, 32, 0, 1, 0, 0, 7],
                "operand not in use: record 0, at byte 7, names 1 (0001h) as its first source, at byte 11; in use are 1 registers from 0, 1 from 16 and 1 values from 32\n",
            ),
            (
                &[1, 1, 0, 0, 2, 0, 8, 4, 2, 0, 0, 7],
                "target too far: record 0, at byte 6, goes to record 2 (0002h, at byte 8); targets are below 2, the number of records\n",
            ),
            (
                &[1, 1, 1, 0, 3, 0, 0, 8, 4, 1, 0, 2, 6, 32, 0, 0, 7],
                "used before it is set: record 1 reads value 32, which no record has set on the way through records 0 1\n",
            ),
        ];
        for (bytes, words) in cases {
            assert_eq!(rt; told(rt.alloc(), bytes)?.as_str(), words);
        }
        Ok(())
    }
}
