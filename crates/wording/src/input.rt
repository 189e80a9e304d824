ghost use Rattle.std.specs.Prelude.{◌≡◌, slice_index};

use std::alloc::Global;

// An input that is refused, and the heap that what is said of it goes to.
#[derive(Clone, Copy)]
pub(crate) struct Input<'a> {
    pub heap: Global,
    pub bytes: &'a [u8],
}

impl Input<'_> {
    // The byte at a place, 0 behind the end.
    pub(crate) fn byte(self, at: usize) -> u8
        ensures { result ≡ slice_index self.entry.bytes.now at }
    {
        self.bytes.get(at).copied().unwrap_or(0)
    }

    // The number of two bytes at a place.
    pub(crate) fn number(self, at: usize) -> u16 {
        u16::from_le_bytes([self.byte(at), self.byte(at.saturating_add(1))])
    }
}
