ghost use Rattle.std.specs.Prelude.{◌≡◌};
ghost use Rattle.code.specs.Decoding.{Decodes, own_of};
ghost use Rattle.code.specs.Kinds.{own};

// What a row does, each with its kind byte; an operator has any byte from its own up.
#[derive(Clone, Copy, PartialEq, Eq, Debug)]
pub enum Kind {
    Constant = 2,
    Move = 3,
    Jump = 4,
    Branch = 5,
    Give = 6,
    End = 7,
    Load = 8,
    Store = 9,
    Operator = 16,
}

// A byte that is no row's kind.
#[derive(Clone, Copy, PartialEq, Eq, Debug)]
pub struct UnknownKind(pub u8);

impl TryFrom<u8> for Kind {
    type Error = UnknownKind;

    ghost try_from_gives = { Decodes };

    fn try_from(byte: u8) -> Result<Kind, UnknownKind> {
        match byte {
            2 => Ok(Kind::Constant),
            3 => Ok(Kind::Move),
            4 => Ok(Kind::Jump),
            5 => Ok(Kind::Branch),
            6 => Ok(Kind::Give),
            7 => Ok(Kind::End),
            8 => Ok(Kind::Load),
            9 => Ok(Kind::Store),
            16..=255 => Ok(Kind::Operator),
            _ => Err(UnknownKind(byte)),
        }
    }
}

impl Kind {
    // Whether the map is one of its own; load and store have one only where slots may stand.
    // A map stays a byte: it is a set of bits, one for each field.
    pub fn has_map(self, slots: bool, map: u8) -> bool
        ensures { result ≡ own_of slots self map }
    {
        match self {
            Kind::Constant => map == 0x11,
            Kind::Move => map == 0x03,
            Kind::Jump => map == 0x08,
            Kind::Branch => map == 0x0A,
            Kind::Give => map == 0x02,
            Kind::End => map == 0x00,
            Kind::Load => slots & (map == 0x41),
            Kind::Store => slots & (map == 0x42),
            Kind::Operator => matches!(map, 0x03 | 0x07 | 0x13 | 0x17),
        }
    }
}

// The same for a kind byte, which has no map where it is no kind.
pub fn own_map(slots: bool, kind: u8, map: u8) -> bool
    ensures { result ≡ own slots kind map }
{
    Kind::try_from(kind).is_ok_and(|kind| kind.has_map(slots, map))
}
