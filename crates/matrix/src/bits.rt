// Single bits of a row of bytes, and where they lie.
ghost use Rattle.std.specs.Prelude.{◌≡◌, ◌+◌, ◌/◌, ◌<◌, ◌≤◌, ◌&&◌, leb, length, if◌then◌else◌, Ok, Err, nat_le};
ghost use Rattle.graph.specs.declared.opening.OpeningRefusal.TheVariants.{NoSuchSize};
ghost use Rattle.matrix.specs.Layout.{triangle, cell, bit_at, bytes_for};

use graph::opening::{OpeningRefusal, check_opening};

// Where row u begins: the number of pairs among the vertices below u.
pub(crate) fn row_start(u: usize) -> usize
    requires { u ≤ 512 }
    ensures place { result ≡ triangle u }
    ensures small { result ≤ 130816 }
{
    (u * u - u) / 2
}

// The place of the pair u, v.
pub(crate) fn cell_of(u: usize, v: usize) -> usize
    requires { (u < 512) × (v < 512) }
    ensures { result ≡ cell u v }
{
    row_start(u.max(v)) + u.min(v)
}

pub(crate) fn has_bit(bits: &[u8], place: usize) -> bool
    requires { place / 8 < length bits.now }
    ensures { result ≡ bit_at bits.now place }
{
    (bits[place / 8] >> (place % 8)) & 1 == 1
}

pub(crate) fn whole_bytes(n: usize) -> usize
    requires { n ≤ 512 }
    ensures { result ≡ bytes_for n }
{
    (row_start(n) + 7) / 8
}

// How many bytes a matrix of n vertices needs.
pub fn bytes_needed(n: usize) -> Result<usize, OpeningRefusal>
    ensures { result ≡ (if leb 32 n && nat_le n 512 then Ok (bytes_for n) else Err NoSuchSize) }
{
    check_opening(n, true)?;
    Ok(whole_bytes(n))
}
