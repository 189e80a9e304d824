ghost use Rattle.std.specs.Prelude.{Some};
ghost use Rattle.classes.specs.Names.{name};

use std::fmt;

// What a register, a value or a vertex can be of. A vertex that is of neither is an `Option` of it.
#[derive(Clone, Copy, PartialEq, Eq, Debug)]
pub enum Class {
    Zero,
    One,
}

impl fmt::Display for Class {
    ghost output = { λ class. Some (name class) };

    fn fmt<W: fmt::Write>(&self, f: &mut fmt::Formatter<W>) -> fmt::Result {
        f.write_str(match self {
            Class::Zero => "0",
            Class::One => "1",
        })
    }
}
