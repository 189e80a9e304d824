ghost use Rattle.std.specs.Prelude.{◌≡◌, ◌+◌, ◌≤◌, length, OnOk};
ghost use Rattle.fields.specs.Outcome.{read_as, itself};
ghost use Rattle.fields.specs.Reading.{byte, two, part};

use crate::fault::RecordFault;

// So many bytes at a place, as a part of the input. Bytes and place come apart here and below: a header is read before there are the
// limits that a `Place` has.
pub fn array_at<const N: usize>(bytes: &[u8], at: usize) -> Result<&[u8; N], RecordFault>
    ensures value { read_as (λ b. b.now) result (at + N) ≡ part N bytes.now at }
    ensures bound { OnOk result (at + N ≤ length bytes.now) }
{
    let end = RecordFault::EndsEarly { at: bytes.len() };
    let rest = bytes.get(at..).ok_or(end)?;
    rest.first_chunk::<N>().ok_or(end)
}

// The byte at a place.
pub fn byte_at(bytes: &[u8], at: usize) -> Result<u8, RecordFault>
    ensures value { read_as itself result (at + 1) ≡ byte bytes.now at }
    ensures bound { OnOk result (at + 1 ≤ length bytes.now) }
{
    let end = RecordFault::EndsEarly { at: bytes.len() };
    bytes.get(at).copied().ok_or(end)
}

// The number of two bytes at a place, the lowest first.
pub fn two_at(bytes: &[u8], at: usize) -> Result<u16, RecordFault>
    ensures value { read_as itself result (at + 2) ≡ two bytes.now at }
    ensures bound { OnOk result (at + 2 ≤ length bytes.now) }
{
    array_at::<2>(bytes, at).map(|two| u16::from_le_bytes(*two))
}

// The eight bytes at a place, as a part of the input.
pub fn eight_at(bytes: &[u8], at: usize) -> Result<&[u8; 8], RecordFault>
    ensures value { read_as (λ b. b.now) result (at + 8) ≡ part 8 bytes.now at }
    ensures bound { OnOk result (at + 8 ≤ length bytes.now) }
{
    array_at::<8>(bytes, at)
}
