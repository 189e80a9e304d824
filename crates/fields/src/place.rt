ghost use Rattle.std.specs.Prelude.{◌≡◌, ◌+◌, ◌≤◌, true, length, OnOk, if◌then◌else◌};
ghost use Rattle.fields.specs.Outcome.{read_as, itself};
ghost use Rattle.fields.specs.Operands.{operand, source, target, slot};
ghost use Rattle.fields.specs.Reading.{part};

use crate::fault::RecordFault;
use crate::limits::Limits;
use crate::parts::{eight_at, two_at};

// A place in the input, with what the records there may hold.
#[derive(Clone, Copy)]
pub struct Place<'l, 'a> {
    pub limits: &'l Limits,
    pub bytes: &'a [u8],
    pub at: usize,
}

// The number, unless it did not pass its check.
fn checked(passes: bool, number: u16, fault: RecordFault) -> Result<u16, RecordFault>
    ensures { result ≡ (if passes then Ok number else Err fault) }
{
    if passes { Ok(number) } else { Err(fault) }
}

impl<'l, 'a> Place<'l, 'a> {
    // An operand: a number in use.
    pub fn operand(self) -> Result<u16, RecordFault>
        ensures value { read_as itself result (self.entry.at + 2) ≡ operand self.entry.limits.now self.entry.bytes.now self.entry.at }
        ensures bound { OnOk result (self.entry.at + 2 ≤ length self.entry.bytes.now) }
    {
        let Place { limits, bytes, at } = self;
        let number = two_at(bytes, at)?;
        checked(limits.in_use(number), number, RecordFault::NotInUse { at })
    }

    // The source of a move: an operand of the destination's class.
    pub fn move_source(self, to: u16) -> Result<u16, RecordFault>
        ensures value { read_as itself result (self.entry.at + 2) ≡ source self.entry.limits.now true (Some to) self.entry.bytes.now self.entry.at }
        ensures bound { OnOk result (self.entry.at + 2 ≤ length self.entry.bytes.now) }
    {
        let Place { limits, at, .. } = self;
        let from = self.operand()?;
        let stays = limits.class_of(to) == limits.class_of(from);
        checked(stays, from, RecordFault::BetweenClasses { at })
    }

    // The target of a jump or a branch: the number of a record.
    pub fn target(self) -> Result<u16, RecordFault>
        ensures value { read_as itself result (self.entry.at + 2) ≡ target self.entry.limits.now self.entry.bytes.now self.entry.at }
        ensures bound { OnOk result (self.entry.at + 2 ≤ length self.entry.bytes.now) }
    {
        let Place { limits, bytes, at } = self;
        let number = two_at(bytes, at)?;
        checked(
            number < limits.targets,
            number,
            RecordFault::TargetTooFar { at },
        )
    }

    // The slot of a load or a store.
    pub fn slot(self) -> Result<u16, RecordFault>
        ensures value { read_as itself result (self.entry.at + 2) ≡ slot self.entry.limits.now self.entry.bytes.now self.entry.at }
        ensures bound { OnOk result (self.entry.at + 2 ≤ length self.entry.bytes.now) }
    {
        let Place { limits, bytes, at } = self;
        let number = two_at(bytes, at)?;
        checked(
            limits.has_slot(number),
            number,
            RecordFault::SlotTooFar { at },
        )
    }

    // The eight bytes of a constant.
    pub fn eight(self) -> Result<&'a [u8; 8], RecordFault>
        ensures value { read_as (λ b. b.now) result (self.entry.at + 8) ≡ part 8 self.entry.bytes.now self.entry.at }
        ensures bound { OnOk result (self.entry.at + 8 ≤ length self.entry.bytes.now) }
    {
        eight_at(self.bytes, self.at)
    }
}
