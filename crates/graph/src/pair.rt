// What a graph that is asked to join a pair finds, before it looks for room.
ghost use Rattle.std.specs.Prelude.{◌≡◌};
ghost use Rattle.graph.specs.Judging.{judged};

use crate::refusal::Refusal;

#[derive(Clone, Copy, PartialEq, Eq, Debug)]
pub enum Pair {
    // joined before
    Present,
    // two different standing vertices that are not joined
    Fresh,
}

// Checked condition by condition: both numbers in range, both standing, not the same, not joined.
pub fn judge(size: usize, u: usize, v: usize, standing: bool, joined: bool) -> Result<Pair, Refusal>
    ensures { result ≡ judged size u v standing joined }
{
    if (u >= size) | (v >= size) {
        Err(Refusal::NoVertex)
    } else if !standing {
        Err(Refusal::NotStanding)
    } else if u == v {
        Err(Refusal::ToItself)
    } else if joined {
        Ok(Pair::Present)
    } else {
        Ok(Pair::Fresh)
    }
}
