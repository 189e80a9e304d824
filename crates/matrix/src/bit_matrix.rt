// The store itself. All n vertices stand; what lies behind the bytes that n vertices need is never touched.
ghost use Rattle.std.specs.Prelude.{length};
ghost use Rattle.matrix.specs.Layout.{Room};

#[derive(Drop)]
pub struct BitMatrix<'a> {
    pub(crate) n: usize,
    pub(crate) bits: &'a mut [u8],
    ghost room: { Room n (length bits.now) },
}
