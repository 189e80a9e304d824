ghost use Rattle.std.specs.Prelude.{◌≡◌, length, replicate};

// A lent row of marks. Whatever happens to it meanwhile, it is handed back all zero.
pub(crate) struct Marks<'a>(pub(crate) &'a mut [u8]);

impl Drop for Marks<'_> {
    fn drop(self)
        ensures { self.exit.0.now ≡ replicate (length self.entry.0.now) 0 }
    {
        self.0.fill(0);
        let Marks(_) = self;
    }
}
