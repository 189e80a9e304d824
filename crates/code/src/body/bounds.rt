ghost use Rattle.std.specs.Prelude.{◌≡◌, length};
ghost use Rattle.code.specs.Codes.{rows_of};

use super::Code;

impl Code {
    // How many rows there are.
    pub fn len(&self) -> usize
        ensures { result ≡ length (rows_of self.now) }
    {
        self.len
    }

    // How many rows there may be; targets are below it.
    pub fn reach(&self) -> usize
        ensures { result ≡ self.now.reach }
    {
        self.reach
    }

    // The numbers of the rows are below it.
    pub fn numbers(&self) -> usize
        ensures { result ≡ self.now.numbers }
    {
        self.numbers
    }
}
