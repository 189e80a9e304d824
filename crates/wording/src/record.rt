use crate::input::Input;
use code::Kind;
use fields::RecordFault;
use formula::Header;
use records::reader::Reader;
use std::alloc::AllocError;

// A record that is refused, behind a header in order: its number and the place of its first byte.
#[derive(Clone, Copy)]
pub(crate) struct Refused<'a> {
    input: Input<'a>,
    header: Header,
    number: u16,
    start: usize,
}

impl<'a> Refused<'a> {
    // The first record that is refused, or the place behind them all.
    pub(crate) fn first(input: Input<'a>, header: Header) -> Refused<'a> {
        let limits = header.limits();
        let mut reader = Reader::new(input.bytes, header.end());
        // The number is told, and is no index; the place behind the last record is wanted too.
        for number in 0..header.records() {
            let start = reader.place();
            if reader.record(&limits).is_err() {
                return Refused {
                    input,
                    header,
                    number,
                    start,
                };
            }
        }
        Refused {
            input,
            header,
            number: header.records(),
            start: reader.place(),
        }
    }
}

impl Refused<'_> {
    pub(crate) fn detail(self, fault: RecordFault) -> Result<String, AllocError> {
        match fault {
            RecordFault::EndsEarly { at } => self.ends(at),
            RecordFault::UnknownKind { .. } => self.unknown_kind(),
            RecordFault::NotInUse { at } => self.not_in_use(at),
            RecordFault::BetweenClasses { at } => self.between_classes(at),
            RecordFault::TargetTooFar { at } => self.target_too_far(at),
            RecordFault::SlotTooFar { at } => self.slot_too_far(at),
        }
    }

    fn ends(self, len: usize) -> Result<String, AllocError> {
        let Refused {
            input,
            number,
            start,
            ..
        } = self;
        format!(in input.heap;
            "record {number}, which begins at byte {start}, is not complete at byte {len}, where the input ends"
        )
    }

    fn unknown_kind(self) -> Result<String, AllocError> {
        let Refused {
            input,
            number,
            start,
            ..
        } = self;
        let map = input.byte(start);
        let kind = input.byte(start.saturating_add(1));
        let right = own_maps(kind);
        format!(in input.heap;
            "record {number}, at byte {start}, has map {map:02X}h and kind {kind:02X}h; {right}"
        )
    }

    fn not_in_use(self, at: usize) -> Result<String, AllocError> {
        let Refused {
            input,
            header,
            number,
            start,
        } = self;
        let found = input.number(at);
        let field = operand_name(input.byte(start), at.saturating_sub(start));
        let k0 = header.k0();
        let k1 = header.k1();
        let values = header.values();
        format!(in input.heap;
            "record {number}, at byte {start}, names {found} ({found:04X}h) as its {field}, at byte {at}; in use are {k0} registers from 0, {k1} from 16 and {values} values from 32"
        )
    }

    fn between_classes(self, at: usize) -> Result<String, AllocError> {
        let Refused {
            input,
            header,
            number,
            start,
        } = self;
        let limits = header.limits();
        let to = input.number(start.saturating_add(2));
        let from = input.number(at);
        let to_class = limits.class_of(to);
        let from_class = limits.class_of(from);
        format!(in input.heap;
            "record {number}, at byte {start}, moves {from} ({from:04X}h, at byte {at}) of class {from_class} to {to} of class {to_class}; a move stays within a class"
        )
    }

    fn target_too_far(self, at: usize) -> Result<String, AllocError> {
        let Refused {
            input,
            header,
            number,
            start,
        } = self;
        let found = input.number(at);
        let records = header.records();
        format!(in input.heap;
            "record {number}, at byte {start}, goes to record {found} ({found:04X}h, at byte {at}); targets are below {records}, the number of records"
        )
    }

    fn slot_too_far(self, at: usize) -> Result<String, AllocError> {
        let Refused {
            input,
            number,
            start,
            ..
        } = self;
        format!(in input.heap;
            "record {number}, at byte {start}, names a slot, at byte {at}, that is not below the number of slots"
        )
    }
}

// The maps that a record of this kind may have.
// The byte is told as it stands in the input, whatever it is.
fn own_maps(kind: u8) -> &'static str {
    match Kind::try_from(kind) {
        Ok(Kind::Constant) => "a constant has map 11h",
        Ok(Kind::Move) => "a move has map 03h",
        Ok(Kind::Jump) => "a jump has map 08h",
        Ok(Kind::Branch) => "a branch has map 0Ah",
        Ok(Kind::Give) => "a give has map 02h",
        Ok(Kind::End) => "an end has map 00h",
        Ok(Kind::Load) => "a load stands in allocated code only",
        Ok(Kind::Store) => "a store stands in allocated code only",
        Ok(Kind::Operator) => "an operator has map 03h, 07h, 13h or 17h",
        Err(_) => "the kinds are 02h to 07h and, for operators, 10h to FFh",
    }
}

// The name of an operand field by its place in a record with this map.
// The map is told as it stands in the input.
fn operand_name(map: u8, offset: usize) -> &'static str {
    match (offset, map % 2) {
        (2, 1) => "destination",
        (2, _) => "first source",
        (4, _) => "first source",
        _ => "second source",
    }
}
