ghost use Rattle.std.specs.Prelude.{Some};
ghost use Rattle.fields.specs.Words.{record_rule};

use super::RecordFault;
use std::error::Error;
use std::fmt;

impl fmt::Display for RecordFault {
    ghost output = { λ fault. Some (record_rule fault) };

    fn fmt<W: fmt::Write>(&self, f: &mut fmt::Formatter<W>) -> fmt::Result {
        f.write_str(match self {
            RecordFault::EndsEarly { .. } => "the input ends early",
            RecordFault::SlotTooFar { .. } => "slot too far",
            RecordFault::UnknownKind { .. } => "unknown kind or map",
            RecordFault::NotInUse { .. } => "operand not in use",
            RecordFault::BetweenClasses { .. } => "move between classes",
            RecordFault::TargetTooFar { .. } => "target too far",
        })
    }
}

impl Error for RecordFault {}
