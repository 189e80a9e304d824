ghost use Rattle.std.specs.Prelude.{◌≡◌, true, ◌&&◌, nat_le};

use graph::class::Class;

mod checking;
mod tables;

// The registers that a session may give out: a class and how many of it, from 1 to 16.
#[derive(Clone, Copy, Debug, PartialEq, Eq)]
pub struct Bank {
    class: Class,
    registers: usize,
    ghost usable: { (nat_le 1 registers && nat_le registers 16) ≡ true },
}

// A bank with no register or with too many.
#[derive(Clone, Copy, Debug, PartialEq, Eq)]
pub struct BadBank;
