use session::{Merge, Refusal};

// A call of a session with its arguments.
#[derive(Clone, Copy, Debug, PartialEq, Eq)]
pub enum Call {
    Note(usize, usize),
    Mark(usize),
    Simplify(usize),
    Freeze(usize),
    Push(usize),
    Merge(usize),
    Colour,
}

// What a call answers that is granted.
#[derive(Clone, Copy, Debug, PartialEq, Eq)]
pub enum Granted {
    // the number of a move
    Noted(usize),
    // what became of a move
    Decided(Merge),
    Done,
}

pub type Answer = Result<Granted, Refusal>;

// A graph that is handed back, and whether the calls were made.
#[derive(Drop)]
pub struct Replayed<G> {
    pub graph: G,
    pub answer: Result<(), Refusal>,
}
