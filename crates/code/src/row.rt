ghost use Rattle.std.specs.Prelude.{◌≡◌};
ghost use Rattle.code.specs.Codes.{is_move, goes_nowhere};
ghost use Rattle.code.specs.Rows.{fields, by_value};

use crate::kinds::Kind;

// Numbers below it are registers, all others are values.
pub const FIRST_VALUE: usize = 32;

// One row of code. As the allocator keeps it, the eight bytes of a constant stand in the row, so that rows can be copied
// and rewritten; a row that is read may borrow them.
#[derive(Clone, Copy, PartialEq, Eq, Debug)]
pub enum Row<C = [u8; 8]> {
    Constant {
        to: u16,
        value: C,
    },
    Move {
        to: u16,
        from: u16,
    },
    Jump {
        target: u16,
    },
    Branch {
        on: u16,
        target: u16,
    },
    Give {
        from: u16,
    },
    End,
    Load {
        to: u16,
        slot: u16,
    },
    Store {
        from: u16,
        slot: u16,
    },
    Operator {
        // a byte: whoever writes formulas numbers the operators, and an enum would name none of them
        kind: u8,
        to: u16,
        first: u16,
        second: Option<u16>,
        constant: Option<C>,
    },
}

impl Row {
    // The kind byte. An operator's is any byte that its maker gave it, so what a row does is asked of the byte and not of the
    // variant.
    pub fn kind(self) -> u8
        ensures { result ≡ (fields self).kind }
    {
        match self {
            Row::Constant { .. } => Kind::Constant as u8,
            Row::Move { .. } => Kind::Move as u8,
            Row::Jump { .. } => Kind::Jump as u8,
            Row::Branch { .. } => Kind::Branch as u8,
            Row::Give { .. } => Kind::Give as u8,
            Row::End => Kind::End as u8,
            Row::Load { .. } => Kind::Load as u8,
            Row::Store { .. } => Kind::Store as u8,
            Row::Operator { kind, .. } => kind,
        }
    }

    // Whether the row is a move.
    pub fn is_move(self) -> bool
        ensures { result ≡ is_move (fields self) }
    {
        self.kind() == Kind::Move as u8
    }

    // Whether control does not go on to the next row: a jump or an end. The kind byte decides, and not the variant, since an
    // operator may have any byte.
    pub fn goes_nowhere(self) -> bool
        ensures { result ≡ goes_nowhere (fields self) }
    {
        let kind = self.kind();
        (kind == Kind::Jump as u8) | (kind == Kind::End as u8)
    }

    // The number that the row sets.
    pub fn destination(self) -> Option<u16>
        ensures { result ≡ (fields self).destination }
    {
        match self {
            Row::Constant { to, .. } => Some(to),
            Row::Move { to, .. } => Some(to),
            Row::Load { to, .. } => Some(to),
            Row::Operator { to, .. } => Some(to),
            _ => None,
        }
    }

    // The number that the row reads first.
    pub fn first_source(self) -> Option<u16>
        ensures { result ≡ (fields self).first }
    {
        match self {
            Row::Move { from, .. } => Some(from),
            Row::Branch { on, .. } => Some(on),
            Row::Give { from } => Some(from),
            Row::Store { from, .. } => Some(from),
            Row::Operator { first, .. } => Some(first),
            _ => None,
        }
    }

    // The number that the row reads second.
    pub fn second_source(self) -> Option<u16>
        ensures { result ≡ (fields self).second }
    {
        match self {
            Row::Operator { second, .. } => second,
            _ => None,
        }
    }

    // The row that a jump or a branch goes to.
    pub fn target(self) -> Option<u16>
        ensures { result ≡ (fields self).target }
    {
        match self {
            Row::Jump { target } => Some(target),
            Row::Branch { target, .. } => Some(target),
            _ => None,
        }
    }
}

impl Row<&[u8; 8]> {
    // The same row with its constant by value.
    pub fn to_row(self) -> Row
        ensures { result ≡ by_value self.entry }
    {
        match self {
            Row::Constant { to, value } => Row::Constant { to, value: *value },
            Row::Move { to, from } => Row::Move { to, from },
            Row::Jump { target } => Row::Jump { target },
            Row::Branch { on, target } => Row::Branch { on, target },
            Row::Give { from } => Row::Give { from },
            Row::End => Row::End,
            Row::Load { to, slot } => Row::Load { to, slot },
            Row::Store { from, slot } => Row::Store { from, slot },
            Row::Operator {
                kind,
                to,
                first,
                second,
                constant,
            } => {
                Row::Operator {
                    kind,
                    to,
                    first,
                    second,
                    constant: constant.copied(),
                }
            }
        }
    }
}
