ghost use Rattle.std.specs.Prelude.{◌≡◌, ◌+◌, true, false, OnOk, IfOk};
ghost use Rattle.code.specs.Kinds.{among, operator_maps};
ghost use Rattle.fields.specs.Operands.{operand};
ghost use Rattle.fields.specs.Reading.{part, if_there};
ghost use Rattle.records.specs.Outcome.{record_read, part_read};
ghost use Rattle.records.specs.Records.{body_at, operator_at};

use crate::bodies::{Found, past};
use crate::record::Record;
use fields::{Place, RecordFault};

// A second source where there is one, with the place behind it. One function over what is read, for this and for the constant,
// would say in clauses on its closure more than the two bodies hold.
fn second_source<'l, 'a>(
    place: Place<'l, 'a>,
    there: bool,
) -> Result<(Option<u16>, Place<'l, 'a>), RecordFault>
    ensures value { part_read (λ number. number) result ≡ if_there there (operand place.entry.limits.now place.entry.bytes.now) place.entry.at }
    ensures input { IfOk result (λ pair. (pair.1.limits.now ≡ place.entry.limits.now) × (pair.1.bytes.now ≡ place.entry.bytes.now)) }
{
    if !there {
        return Ok((None, place));
    }
    let number = place.operand()?;
    Ok((Some(number), past(place, 2)))
}

// A constant where there is one, with the place behind it.
fn constant<'l, 'a>(
    place: Place<'l, 'a>,
    there: bool,
) -> Result<(Option<&'a [u8; 8]>, Place<'l, 'a>), RecordFault>
    ensures { part_read (λ b. b.now) result ≡ if_there there (part 8 place.entry.bytes.now) place.entry.at }
{
    if !there {
        return Ok((None, place));
    }
    let bytes = place.eight()?;
    Ok((Some(bytes), past(place, 8)))
}

// An operator with or without a second source and a constant.
// The kind is the operator's own byte.
fn with_parts<'a>(place: Place<'_, 'a>, kind: u8, two: bool, constants: bool) -> Found<'a>
    ensures { record_read result ≡ operator_at place.entry kind two constants }
{
    let to = place.operand()?;
    let place = past(place, 2);
    let first = place.operand()?;
    let (second, place) = second_source(past(place, 2), two)?;
    let (constant, place) = constant(place, constants)?;
    Ok((
        Record::Operator {
            kind,
            to,
            first,
            second,
            constant,
        },
        place.at,
    ))
}

// An operator of any of its four maps.
pub fn operator<'a>(place: Place<'_, 'a>, kind: u8, map: u8) -> Found<'a>
    requires { among operator_maps map ≡ true }
    ensures { record_read result ≡ body_at place.entry false kind map }
{
    with_parts(place, kind, map / 0x04 % 2 == 1, map / 0x10 % 2 == 1)
}
