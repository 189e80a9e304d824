ghost use Rattle.std.specs.Prelude.{◌≡◌};
ghost use Rattle.kept.specs.Answers.{number_of};

// Why a call of a session is not granted. Each has the number that it is known by.
#[derive(Clone, Copy, Debug, PartialEq, Eq)]
pub enum Refusal {
    // the memory that was lent is too short
    Short = 2,
    // no vertex or move has that number
    NoSuch = 13,
    // a vertex that does not stand
    NotStanding = 14,
    // no room for another move
    Full = 16,
    // a condition of the call is not met
    NotMet = 17,
    // a vertex that is not fixed still stands
    TooEarly = 18,
}

impl Refusal {
    // The number that the refusal is known by.
    // A method and no `From`: a refusal is known by its number, and is none.
    pub fn number(self) -> u8
        ensures { result ≡ number_of self }
    {
        self as u8
    }
}
