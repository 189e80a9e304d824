ghost use Rattle.std.specs.Prelude.{◌≡◌, ◌+◌, ◌≤◌, true, false, length};
ghost use Rattle.records.specs.Outcome.{record_read};
ghost use Rattle.records.specs.Records.{body_at};

use crate::record::Record;
use fields::{Place, RecordFault};

// A record with the place behind it.
pub type Found<'a> = Result<(Record<'a>, usize), RecordFault>;

// The place so many bytes on.
pub(crate) fn past<'l, 'a>(place: Place<'l, 'a>, size: usize) -> Place<'l, 'a>
    requires { place.at + size ≤ length place.bytes.now }
    ensures { result ≡ record place.entry { at = place.entry.at + size } }
{
    Place {
        at: place.at + size,
        ..place
    }
}

pub fn constant<'a>(place: Place<'_, 'a>) -> Found<'a>
    ensures { record_read result ≡ body_at place.entry false 2 0x11 }
{
    let to = place.operand()?;
    let value = past(place, 2).eight()?;
    Ok((Record::Constant { to, value }, place.at + 2 + 8))
}

pub fn transfer<'a>(place: Place<'_, 'a>) -> Found<'a>
    ensures { record_read result ≡ body_at place.entry true 3 0x03 }
{
    let to = place.operand()?;
    let from = past(place, 2).move_source(to)?;
    Ok((Record::Move { to, from }, place.at + 2 + 2))
}

pub fn jump<'a>(place: Place<'_, 'a>) -> Found<'a>
    ensures { record_read result ≡ body_at place.entry false 4 0x08 }
{
    let target = place.target()?;
    Ok((Record::Jump { target }, place.at + 2))
}

pub fn branch<'a>(place: Place<'_, 'a>) -> Found<'a>
    ensures { record_read result ≡ body_at place.entry false 5 0x0A }
{
    let on = place.operand()?;
    let target = past(place, 2).target()?;
    Ok((Record::Branch { on, target }, place.at + 2 + 2))
}

pub fn give<'a>(place: Place<'_, 'a>) -> Found<'a>
    ensures { record_read result ≡ body_at place.entry false 6 0x02 }
{
    let from = place.operand()?;
    Ok((Record::Give { from }, place.at + 2))
}

pub fn load<'a>(place: Place<'_, 'a>) -> Found<'a>
    ensures { record_read result ≡ body_at place.entry false 8 0x41 }
{
    let to = place.operand()?;
    let slot = past(place, 2).slot()?;
    Ok((Record::Load { to, slot }, place.at + 2 + 2))
}

pub fn store<'a>(place: Place<'_, 'a>) -> Found<'a>
    ensures { record_read result ≡ body_at place.entry false 9 0x42 }
{
    let from = place.operand()?;
    let slot = past(place, 2).slot()?;
    Ok((Record::Store { from, slot }, place.at + 2 + 2))
}
