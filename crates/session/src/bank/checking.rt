ghost use Rattle.std.specs.Prelude.{◌≡◌};
ghost use Rattle.session.specs.Banks.{Checked};
ghost use Rattle.session_laws.specs.Bank.{first_of};

use super::{BadBank, Bank};
use graph::class::Class;

impl Bank {
    pub fn new(class: Class, registers: usize) -> Result<Bank, BadBank>
        ensures { Checked class registers result }
    {
        if registers < 1 || registers > 16 {
            return Err(BadBank);
        }
        Ok(Bank { class, registers })
    }

    pub(crate) fn class(self) -> Class
        ensures { result ≡ self.class }
    {
        self.class
    }

    pub(crate) fn registers(self) -> usize
        ensures { result ≡ self.registers }
    {
        self.registers
    }

    // The number of its first register.
    pub(crate) fn first(self) -> usize
        ensures { result ≡ first_of self.class }
    {
        match self.class {
            Class::Zero => 0,
            Class::One => 16,
        }
    }
}

impl BadBank {
    // The number that the refusal is known by.
    pub fn number(self) -> u8
        ensures { result ≡ 4 }
    {
        4
    }
}
