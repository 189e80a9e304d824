ghost use Rattle.std.specs.Prelude.{◌≡◌, ◌+◌, ◌^◌, ◌<◌, ◌≤◌, length, IfOk};
ghost use Rattle.std.specs.Range.{range_inclusive_contains};
ghost use Rattle.fields.specs.Outcome as fields;
ghost use Rattle.fields.specs.Outcome.{itself};
ghost use Rattle.fields.specs.Reading.{byte, two, part};
ghost use Rattle.formula.specs.Headers.{ranged, class_bits, header_at, whole_bytes, number};
ghost use Rattle.formula.specs.Outcome.{read_as, header_read, kept};

use super::Header;
use crate::fault::FormulaFault;
use fields::RecordFault;
use fields::parts::{byte_at, two_at};
use std::ops::RangeInclusive;

// The number, unless it is out of its range; its first byte is at this place.
fn in_range<T: PartialOrd + Copy>(
    range: RangeInclusive<T>,
    number: T,
    at: usize,
) -> Result<T, FormulaFault>
    ensures { result ≡ kept (range_inclusive_contains T.partial_cmp range number) number at }
{
    if !range.contains(&number) {
        return Err(FormulaFault::OutOfRange { at });
    }
    Ok(number)
}

// How many registers of a class are in use.
fn bank_at(bytes: &[u8], at: usize) -> Result<u8, FormulaFault>
    ensures value { read_as itself result (at + 1) ≡ ranged 1 16 (byte bytes.now) at }
    ensures bound { IfOk result (λ k. (1 ≤ k) × (k ≤ 16) × (at + 1 ≤ length bytes.now)) }
{
    in_range(1..=16, byte_at(bytes, at)?, at)
}

// How many values or records there are.
fn count_at(least: u16, most: u16, bytes: &[u8], at: usize) -> Result<u16, FormulaFault>
    ensures value { read_as itself result (at + 2) ≡ ranged least most (two bytes.now) at }
    ensures bound { IfOk result (λ n. (least ≤ n) × (n ≤ most) × (at + 2 ≤ length bytes.now)) }
{
    in_range(least..=most, two_at(bytes, at)?, at)
}

// At most sixteen bytes as one number, the lowest first.
fn number_of(bytes: &[u8]) -> u128
    requires { length bytes.now ≤ 16 }
    ensures { result ≡ number bytes.now }
{
    let mut padded = [0; 16];
    padded[..bytes.len()].copy_from_slice(bytes);
    u128::from_le_bytes(padded)
}

// So many bytes at a place.
fn part_at(bytes: &[u8], at: usize, size: usize) -> Result<&[u8], RecordFault>
    ensures { fields.read_as (λ b. b.now) result (at + size) ≡ part size bytes.now at }
{
    bytes
        .get(at..)
        .and_then(|rest| rest.get(..size))
        .ok_or(RecordFault::EndsEarly { at: bytes.len() })
}

// The classes of so many values, one bit each.
fn classes_at(values: u16, bytes: &[u8], at: usize) -> Result<u128, FormulaFault>
    requires { values ≤ 96 }
    ensures value { read_as itself result (at + whole_bytes values) ≡ class_bits values bytes.now at }
    ensures bound { IfOk result (λ classes. classes < 2 ^ values) }
{
    let size = usize::from(values).div_ceil(8);
    let classes = number_of(part_at(bytes, at, size)?);
    if classes >> values != 0 {
        return Err(FormulaFault::PaddingSet { at: at + size - 1 });
    }
    Ok(classes)
}

// The header at the start of the input.
#[tactic(auto, unfolding(crate::specs::Headers::header_at))]
pub fn read_header(bytes: &[u8]) -> Result<Header, FormulaFault>
    ensures { header_read result ≡ header_at bytes.now }
{
    let k0 = bank_at(bytes, 0)?;
    let k1 = bank_at(bytes, 1)?;
    let values = count_at(0, 96, bytes, 2)?;
    let records = count_at(1, 128, bytes, 4)?;
    let classes = classes_at(values, bytes, 6)?;
    Ok(Header {
        k0,
        k1,
        values,
        records,
        classes,
    })
}
