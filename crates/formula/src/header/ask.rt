ghost use Rattle.std.specs.Prelude.{◌≡◌};

use super::Header;

impl Header {
    // How many registers of class 0 are in use: 1 to 16.
    pub fn k0(&self) -> u8
        ensures { result ≡ self.now.k0 }
    {
        self.k0
    }

    // How many registers of class 1 are in use: 1 to 16.
    pub fn k1(&self) -> u8
        ensures { result ≡ self.now.k1 }
    {
        self.k1
    }

    // How many values there are, at most 96; they are numbered from 32.
    pub fn values(&self) -> u16
        ensures { result ≡ self.now.values }
    {
        self.values
    }

    // How many records there are: 1 to 128.
    pub fn records(&self) -> u16
        ensures { result ≡ self.now.records }
    {
        self.records
    }

    // The classes of the values: that of value 32 + i is bit i.
    pub fn classes(&self) -> u128
        ensures { result ≡ self.now.classes }
    {
        self.classes
    }
}
