// Whether a store of n vertices can be opened.
ghost use Rattle.std.specs.Prelude.{◌≡◌};
ghost use Rattle.graph.specs.Opening.{opening, opening_number};

// each under the number that it is known by
#[derive(Clone, Copy, PartialEq, Eq, Debug)]
pub enum OpeningRefusal {
    // fewer than 32 vertices, or more than 512
    NoSuchSize = 13,
    // too little memory for that many
    ShortMemory = 2,
}

impl OpeningRefusal {
    // A method and no `From`, as for a pair that is refused.
    pub fn number(self) -> u8
        ensures { result ≡ opening_number self }
    {
        self as u8
    }
}

// `enough` is whether the memory suffices; it counts only for a size that a graph can have.
pub fn check_opening(n: usize, enough: bool) -> Result<(), OpeningRefusal>
    ensures { result ≡ opening n enough }
{
    if (n < 32) | (n > 512) {
        Err(OpeningRefusal::NoSuchSize)
    } else if !enough {
        Err(OpeningRefusal::ShortMemory)
    } else {
        Ok(())
    }
}
