// A vertex's neighbours: those below it lie together in its row, those above it have one bit in each later row.
ghost use Rattle.std.specs.Prelude.{◌≡◌, ◌+◌, ◌-◌, ◌*◌, ◌<◌, ◌≤◌, length};
ghost use Rattle.graph.specs.Counting.{first};
ghost use Rattle.matrix.specs.Layout.{bit_at, bytes_for};
ghost use Rattle.matrix.specs.Rows.{between, above};

use crate::bits::{has_bit, row_start};

// How many bits from place `from` on, before `to`, are set. Whole bytes are counted at once.
pub(crate) fn ones_between(bits: &[u8], from: usize, to: usize) -> usize
    requires { (from ≤ to) × ((to ≤ 8 * length bits.now) × (to ≤ 130816)) }
    ensures { result ≡ between (bit_at bits.now) from to }
{
    // The step is one bit or one byte, so no range gives it.
    let mut found = 0;
    let mut at = from;
    while at < to {
        if (at % 8 == 0) & (at + 8 <= to) {
            // Rust has no `From<u32>` for `usize`; proved to fit
            found += bits[at / 8].count_ones() as usize;
            at += 8;
        } else {
            if has_bit(bits, at) {
                found += 1;
            }
            at += 1;
        }
    }
    found
}

// The first place from `from` on, before `to`, whose bit is set. Bytes of zero are passed over at once.
pub(crate) fn first_between(bits: &[u8], from: usize, to: usize) -> Option<usize>
    requires { (from ≤ to) × ((to ≤ 8 * length bits.now) × (to ≤ 130816)) }
    ensures { result ≡ first (bit_at bits.now) from (to - from) }
{
    // The same step.
    let mut at = from;
    while at < to {
        if (at % 8 == 0) & (bits[at / 8] == 0) {
            at += 8;
        } else if has_bit(bits, at) {
            return Some(at);
        } else {
            at += 1;
        }
    }
    None
}

// How many vertices above u, below n, have the bit of u in their row set.
pub(crate) fn ones_above(bits: &[u8], u: usize, n: usize) -> usize
    requires { (u < n) × ((n ≤ 512) × (bytes_for n ≤ length bits.now)) }
    ensures { result ≡ between (above bits.now u) (u + 1) n }
{
    // Not a chain: with `filter` and `count` a degree took a quarter more time.
    let mut found = 0;
    for v in u + 1..n {
        if has_bit(bits, row_start(v) + u) {
            found += 1;
        }
    }
    found
}

// The first vertex from `from` on, below n, that has the bit of u in its row set.
pub(crate) fn first_above(bits: &[u8], u: usize, from: usize, n: usize) -> Option<usize>
    requires { (u < from) × ((n ≤ 512) × (bytes_for n ≤ length bits.now)) }
    ensures { result ≡ first (above bits.now u) from (n - from) }
{
    // Not a chain: with `find` all neighbours of a vertex took a twelfth more time.
    for v in from..n {
        if has_bit(bits, row_start(v) + u) {
            return Some(v);
        }
    }
    None
}
