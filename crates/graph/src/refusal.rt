// Why a pair is not joined.
ghost use Rattle.std.specs.Prelude.{◌≡◌};
ghost use Rattle.graph.specs.Refusals.{number_of};

// each under the number that it is known by
#[derive(Clone, Copy, PartialEq, Eq, Debug)]
pub enum Refusal {
    // a number of size or more
    NoVertex = 13,
    // a vertex that does not stand
    NotStanding,
    // a vertex with itself
    ToItself,
    // no room for another pair
    Full,
}

impl Refusal {
    // A method and no `From`: the rules know a refusal by this number, which is not what it is.
    pub fn number(self) -> u8
        ensures { result ≡ number_of self }
    {
        self as u8
    }
}
