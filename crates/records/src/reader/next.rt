ghost use Rattle.std.specs.Prelude.{◌≡◌, ◌+◌, true, false, is_some, is_err, ◌==◌};
ghost use Rattle.code.specs.Decoding.{is_of, own_of};
ghost use Rattle.records.specs.Laws.{ReadsWritings};
ghost use Rattle.fields.specs.Outcome.{read_as};
ghost use Rattle.records.specs.Outcome.{record_read, record_fields};
ghost use Rattle.records.specs.Records.{body_at, parsed_at, record_at};

use super::Reader;
use crate::bodies::{Found, branch, constant, give, jump, load, past, store, transfer};
use crate::operators::operator;
use crate::record::Record;
use code::Kind;
use fields::parts::byte_at;
use fields::{Limits, Place, RecordFault};

// The fields of a record whose map is its kind's own, from the place behind map and kind on.
fn body_at<'a>(place: Place<'_, 'a>, kind: Kind, byte: u8, map: u8) -> Found<'a>
    requires kind { is_of kind byte ≡ true }
    requires map { own_of (is_some place.limits.now.slots) kind map ≡ true }
    ensures { record_read result ≡ body_at place.entry (byte == 3) byte map }
{
    match kind {
        Kind::Constant => constant(place),
        Kind::Move => transfer(place),
        Kind::Jump => jump(place),
        Kind::Branch => branch(place),
        Kind::Give => give(place),
        Kind::End => Ok((Record::End, place.at)),
        Kind::Load => load(place),
        Kind::Store => store(place),
        Kind::Operator => operator(place, byte, map),
    }
}

// The record at a place, with the place behind it.
fn found_at<'a>(place: Place<'_, 'a>) -> Found<'a>
    ensures { record_read result ≡ parsed_at place.entry.limits.now place.entry.bytes.now place.entry.at }
{
    let Place { limits, bytes, at } = place;
    let map = byte_at(bytes, at)?;
    let byte = byte_at(bytes, at + 1)?;
    let slots = limits.slots.is_some();
    match Kind::try_from(byte) {
        Ok(kind) if kind.has_map(slots, map) => body_at(past(past(place, 1), 1), kind, byte, map),
        _ => Err(RecordFault::UnknownKind { at }),
    }
}

impl<'a> Reader<'a> {
    fn advance(&mut self, limits: &Limits) -> Result<Record<'a>, RecordFault>
        ensures value { read_as record_fields result self.new.at ≡ parsed_at limits.now self.old.bytes.now self.old.at }
        ensures stays { is_err result ≡ true → self.new.at ≡ self.old.at }
        ensures bytes { self.new.bytes.now ≡ self.old.bytes.now }
    {
        let place = Place {
            limits,
            bytes: self.bytes,
            at: self.at,
        };
        let (record, next) = found_at(place)?;
        self.at = next;
        Ok(record)
    }

    // The next record; a refusal leaves the reader where it was.
    pub fn record(&mut self, limits: &Limits) -> Result<Record<'a>, RecordFault>
        ensures value { read_as record_fields result self.new.at ≡ record_at limits.now self.old.bytes.now self.old.at }
        ensures stays { is_err result ≡ true → self.new.at ≡ self.old.at }
        ensures bytes { self.new.bytes.now ≡ self.old.bytes.now }
        ensures law { ReadsWritings limits.now self.old.bytes.now self.old.at }
    {
        self.advance(limits)
    }
}
