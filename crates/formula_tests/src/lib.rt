#![tactic(auto)]

// Damaged formulas and their refusals, each worked out by hand from the rules of the byte format.
use formula::read_formula;

// Two registers of class 0, one of class 1, three values; constant, move, operator, give, end.
const SQUARE: [u8; 39] = [
    2, 1, 3, 0, 5, 0, 0, 0x11, 2, 32, 0, 1, 2, 3, 4, 5, 6, 7, 8, 3, 3, 33, 0, 32, 0, 7, 16, 34, 0,
    33, 0, 33, 0, 2, 6, 34, 0, 0, 7,
];

// Two values, the second of class 1; a branch, a jump and an end.
const WAYS: [u8; 31] = [
    1, 2, 2, 0, 4, 0, 2, 0x11, 2, 32, 0, 9, 9, 9, 9, 9, 9, 9, 9, 0x0A, 5, 32, 0, 3, 0, 8, 4, 1, 0,
    0, 7,
];

// The refusal's number and place; none for a formula in order.
fn refusal(bytes: &[u8]) -> Option<(u8, usize)> {
    let fault = read_formula(bytes).err()?;
    Some((fault.number(), fault.place()))
}

// The refusal of a formula with two of its bytes replaced.
fn damaged<const N: usize>(
    mut bytes: [u8; N],
    at: usize,
    byte: u8,
    and: usize,
    too: u8,
) -> Option<(u8, usize)> {
    for (place, byte) in [(at, byte), (and, too)] {
        if let Some(found) = bytes.get_mut(place) {
            *found = byte;
        }
    }
    refusal(&bytes)
}

#[cfg(test)]
mod tests {
    use super::*;

    #[test]
    fn in_order(rt: HostRuntime) {
        assert_eq!(rt; refusal(&SQUARE), None);
        assert_eq!(rt; refusal(&WAYS), None);
    }

    // Cut short at any byte, the input ends early, at its length.
    #[test]
    fn cut_anywhere(rt: HostRuntime) {
        // The lengths are what is tried.
        for len in 0..39 {
            assert_eq!(rt; refusal(&SQUARE[0..len]), Some((3, len)));
        }
    }

    // Each header field, and the earlier of two before the later.
    #[test]
    fn headers(rt: HostRuntime) {
        let cases = [
            (0, 0, 0, 0, (4, 0), "no register of class 0"),
            (0, 17, 0, 17, (4, 0), "17 of class 0"),
            (1, 0, 1, 0, (4, 1), "no register of class 1"),
            (0, 17, 1, 17, (4, 0), "both banks"),
            (2, 97, 2, 97, (4, 2), "97 values"),
            (1, 17, 2, 97, (4, 1), "bank before values"),
            (3, 1, 3, 1, (4, 2), "259 values"),
            (4, 0, 4, 0, (4, 4), "no records"),
            (4, 129, 4, 129, (4, 4), "129 records"),
            (2, 97, 4, 0, (4, 2), "values before records"),
            (6, 8, 6, 8, (5, 6), "a bit above three values"),
            (4, 0, 6, 8, (4, 4), "records before padding"),
            (6, 8, 7, 0, (5, 6), "padding before the first record"),
        ];
        for (at, byte, and, too, found, why) in cases {
            assert_eq!(rt; damaged(SQUARE, at, byte, and, too), Some(found), "{why}");
        }
    }

    // Each rule of a record, and the earlier of two before the later.
    #[test]
    fn records(rt: HostRuntime) {
        let cases = [
            (7, 0x12, 7, 0x12, (6, 7), "a constant with another map"),
            (8, 1, 8, 1, (6, 7), "no such kind"),
            (7, 0x41, 8, 8, (6, 7), "a load in a formula"),
            (7, 0x42, 8, 9, (6, 7), "a store in a formula"),
            (7, 0x91, 7, 0x91, (6, 7), "a bit that no map has"),
            (9, 35, 9, 35, (7, 9), "destination past the values"),
            (8, 1, 9, 35, (6, 7), "kind before operand"),
            (21, 2, 21, 2, (7, 21), "register 2 of class 0 of two"),
            (23, 17, 23, 17, (7, 23), "register 1 of class 1 of one"),
            (21, 2, 23, 17, (7, 21), "destination before source"),
            (23, 16, 23, 16, (8, 23), "a move from class 1"),
            (31, 35, 31, 35, (7, 31), "second source"),
        ];
        for (at, byte, and, too, found, why) in cases {
            assert_eq!(rt; damaged(SQUARE, at, byte, and, too), Some(found), "{why}");
        }
    }

    // Operand before class, first before second source, and what only jumps and branches have.
    #[test]
    fn ways(rt: HostRuntime) {
        let cases = [
            (29, 40, 31, 41, (7, 29), "first before second source"),
            (6, 1, 21, 99, (7, 21), "operand before class"),
            (
                6,
                1,
                6,
                1,
                (8, 23),
                "a destination of another class than its source",
            ),
        ];
        for (at, byte, and, too, found, why) in cases {
            assert_eq!(rt; damaged(SQUARE, at, byte, and, too), Some(found), "{why}");
        }
        let cases = [
            (23, 4, 23, 4, (9, 23), "a branch past the records"),
            (21, 34, 23, 4, (7, 21), "operand before target"),
            (27, 4, 27, 4, (9, 27), "a jump past the records"),
            (23, 4, 27, 4, (9, 23), "the earlier record first"),
        ];
        for (at, byte, and, too, found, why) in cases {
            assert_eq!(rt; damaged(WAYS, at, byte, and, too), Some(found), "{why}");
        }
    }

    // What is checked behind the records: 10, then 11.
    #[test]
    fn after_records(rt: HostRuntime) {
        assert_eq!(rt;
            damaged(SQUARE, 4, 4, 4, 4),
            Some((10, 37)),
            "one record fewer than there are"
        );
        assert_eq!(rt;
            refusal(&[1, 1, 0, 0, 1, 0, 2, 6, 0, 0]),
            Some((11, 6)),
            "a give at the end"
        );
        assert_eq!(rt;
            refusal(&[1, 1, 0, 0, 1, 0, 2, 6, 0, 0, 0]),
            Some((10, 10)),
            "bytes before the last record"
        );
        assert_eq!(rt;
            refusal(&[1, 1, 0, 0, 1, 0, 8, 4, 0, 0]),
            None,
            "a jump at the end"
        );
        assert_eq!(rt;
            refusal(&[17]),
            Some((4, 0)),
            "a field is checked before the next is read"
        );
        assert_eq!(rt;
            refusal(&[1, 1, 1, 0, 2, 0, 0, 2, 6, 32, 0, 0, 7, 9]),
            Some((10, 13)),
            "bytes before a value that is not set"
        );
        assert_eq!(rt;
            refusal(&[1, 1, 0, 0, 1, 0, 8, 4, 1, 0, 0]),
            Some((9, 8)),
            "target before bytes"
        );
    }

    // The last rule: no value may be live before the first record. Its place is the lowest such value.
    #[test]
    fn set_before_use(rt: HostRuntime) {
        assert_eq!(rt;
            damaged(SQUARE, 23, 33, 23, 33),
            Some((12, 33)),
            "a move from itself"
        );
        assert_eq!(rt;
            refusal(&[1, 1, 1, 0, 2, 0, 0, 2, 6, 32, 0, 0, 7]),
            Some((12, 32)),
            "never set"
        );
        assert_eq!(rt;
            refusal(&[1, 1, 0, 0, 2, 0, 2, 6, 0, 0, 0, 7]),
            None,
            "a register may be live"
        );
        assert_eq!(rt;
            refusal(&[1, 1, 1, 0, 1, 0, 0, 2, 6, 32, 0]),
            Some((11, 7)),
            "the last record first"
        );
        let unreached = [1, 1, 1, 0, 3, 0, 0, 8, 4, 2, 0, 2, 6, 32, 0, 0, 7];
        assert_eq!(rt; refusal(&unreached), None, "read where control never comes");
        let two = [1, 1, 3, 0, 2, 0, 0, 7, 16, 34, 0, 33, 0, 32, 0, 0, 7];
        assert_eq!(rt; refusal(&two), Some((12, 32)), "the lowest of two");
    }

    // A value that only one of two ways sets; and one that both set.
    #[test]
    fn set_on_one_way(rt: HostRuntime) {
        let one = [
            1, 1, 1, 0, 4, 0, 0, 0x0A, 5, 0, 0, 2, 0, 3, 16, 32, 0, 0, 0, 2, 6, 32, 0, 0, 7,
        ];
        assert_eq!(rt; refusal(&one), Some((12, 32)));
        let both = [
            1, 1, 1, 0, 4, 0, 0, 0x0A, 5, 0, 0, 1, 0, 3, 16, 32, 0, 0, 0, 2, 6, 32, 0, 0, 7,
        ];
        assert_eq!(rt; refusal(&both), None);
    }
}
