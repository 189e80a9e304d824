ghost use Rattle.std.specs.Prelude.{◌≡◌, ◌/◌, ◌%◌, ◌^◌};
ghost use Rattle.classes.specs.Names as class;
ghost use Rattle.fields.specs.InUse.{in_use, class_of, below_given};

use classes::Class;

// What a record may hold: the registers and values in use, how far targets go, and whether slots may stand.
#[derive(Clone, Copy, PartialEq, Eq, Debug)]
pub struct Limits {
    // registers in use of class 0, numbered from 0, and of class 1, numbered from 16
    pub k0: u8,
    pub k1: u8,
    // values in use, numbered from 32
    pub values: u16,
    // the class of value 32 + i is bit i
    pub classes: u128,
    // targets are below it
    pub targets: u16,
    // slots are below it; load and store rows stand only where it is given
    pub slots: Option<u16>,
}

impl Limits {
    // Whether an operand may be this number.
    pub fn in_use(&self, number: u16) -> bool
        ensures { result ≡ in_use self.now number }
    {
        let value = u32::from(number);
        (number < u16::from(self.k0))
            | (16..16 + u16::from(self.k1)).contains(&number)
            | (32..32 + u32::from(self.values)).contains(&value)
    }

    // The class of a value, by its bit.
    fn class_of_value(&self, bit: u16) -> Class
        ensures { class.number result ≡ self.now.classes / 2 ^ bit % 2 }
    {
        let classes = self.classes;
        if bit < 128 && (classes >> bit) % 2 == 1 {
            Class::One
        } else {
            Class::Zero
        }
    }

    // The class of a number: a register's by its bank, a value's by its bit.
    pub fn class_of(&self, number: u16) -> Class
        ensures { class.number result ≡ class_of self.now number }
    {
        match number {
            0..=15 => Class::Zero,
            16..=31 => Class::One,
            _ => self.class_of_value(number - 32),
        }
    }

    // Whether slots may stand, and this is one of them.
    pub fn has_slot(&self, number: u16) -> bool
        ensures { result ≡ below_given self.now.slots number }
    {
        self.slots.is_some_and(|count| number < count)
    }
}
