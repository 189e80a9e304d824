ghost use Rattle.std.specs.Prelude.{◌≡◌};

mod next;

// Goes over the caller's bytes record by record. Its state is the next place.
#[derive(Drop)]
pub struct Reader<'a> {
    bytes: &'a [u8],
    at: usize,
}

impl<'a> Reader<'a> {
    // A reader of these bytes from a place on.
    pub fn new(bytes: &'a [u8], at: usize) -> Reader<'a>
        ensures { (result.bytes.now ≡ bytes.now) × (result.at ≡ at) }
    {
        Reader { bytes, at }
    }

    // The next place.
    pub fn place(&self) -> usize
        ensures { result ≡ self.now.at }
    {
        self.at
    }
}
