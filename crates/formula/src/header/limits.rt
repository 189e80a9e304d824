ghost use Rattle.std.specs.Prelude.{◌≡◌, ◌+◌};
ghost use Rattle.formula.specs.Headers.{whole_bytes, limits_of, header_fields};

use super::Header;
use fields::Limits;

impl Header {
    // The place of the first record.
    pub fn end(&self) -> usize
        ensures { result ≡ 6 + whole_bytes self.now.values }
    {
        6 + usize::from(self.values).div_ceil(8)
    }

    // What the records of the formula may hold.
    pub fn limits(&self) -> Limits
        ensures { result ≡ limits_of (header_fields self.now) }
    {
        Limits {
            k0: self.k0,
            k1: self.k1,
            values: self.values,
            classes: self.classes,
            targets: self.records,
            slots: None,
        }
    }
}
