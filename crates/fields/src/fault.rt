ghost use Rattle.std.specs.Prelude.{◌≡◌};
ghost use Rattle.fields.specs.Faults.{number_of, place_of};

mod words;

// Why a record is refused, each with the place that the refusal names.
#[derive(Clone, Copy, PartialEq, Eq, Debug)]
pub enum RecordFault {
    // the input ends early; its length
    EndsEarly { at: usize },
    // a slot not below the count; the field's place
    SlotTooFar { at: usize },
    // a kind that is not known, or a map that is not its own; the record's first byte
    UnknownKind { at: usize },
    // an operand that is not in use; the field's place
    NotInUse { at: usize },
    // a move between classes; the source field's place
    BetweenClasses { at: usize },
    // a target that is not below the number of records; the field's place
    TargetTooFar { at: usize },
}

impl RecordFault {
    // The refusal's number.
    // No `From`: a fault has two numbers, this one and its place.
    pub fn number(self) -> u8
        ensures { result ≡ number_of self }
    {
        match self {
            RecordFault::EndsEarly { .. } => 3,
            RecordFault::SlotTooFar { .. } => 4,
            RecordFault::UnknownKind { .. } => 6,
            RecordFault::NotInUse { .. } => 7,
            RecordFault::BetweenClasses { .. } => 8,
            RecordFault::TargetTooFar { .. } => 9,
        }
    }

    // The place that the refusal names.
    pub fn place(self) -> usize
        ensures { result ≡ place_of self }
    {
        match self {
            RecordFault::EndsEarly { at } => at,
            RecordFault::SlotTooFar { at } => at,
            RecordFault::UnknownKind { at } => at,
            RecordFault::NotInUse { at } => at,
            RecordFault::BetweenClasses { at } => at,
            RecordFault::TargetTooFar { at } => at,
        }
    }
}
