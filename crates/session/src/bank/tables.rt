// What the views over the given graph go by.
ghost use Rattle.std.specs.Prelude.{◌≡◌, ℕ};
ghost use Rattle.session_laws.specs.Bank.{is_register, classes_under as under_bank};
ghost use Rattle.views.specs.Tables.{flag, class_at};
ghost use Rattle.session.specs.Banks.{bank_of};

use super::Bank;
use graph::class::Class;
use std::array;

impl Bank {
    pub(crate) fn is_register(self, v: usize) -> bool
        ensures { result ≡ is_register (bank_of self) v }
    {
        let first = self.first();
        (first..first + self.registers).contains(&v)
    }

    // A flag for each register of the bank.
    pub(crate) fn flags(self) -> [bool; 512]
        ensures { (v : ℕ) → flag result v ≡ is_register (bank_of self) v }
    {
        array::from_fn(|v| self.is_register(v))
    }

    // The class of v: below 32 only the bank's registers have one.
    fn class_at(self, given: Option<Class>, v: usize) -> Option<Class>
        ensures { result ≡ under_bank (bank_of self) (λ _. given) v }
    {
        if v >= 32 {
            return given;
        }
        self.is_register(v).then_some(self.class)
    }

    pub(crate) fn classes_under(self, classes: &[Option<Class>; 512]) -> [Option<Class>; 512]
        ensures { (v : ℕ) → class_at result v ≡ under_bank (bank_of self) (class_at classes.now) v }
    {
        array::from_fn(|v| self.class_at(classes[v], v))
    }
}
