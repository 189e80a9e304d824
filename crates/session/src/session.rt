use kept::Kept;

mod calls;
mod opening;

// A session owns the graph that it was opened over, so that nothing else changes it, and works on what it read there.
pub struct Session<G> {
    graph: G,
    kept: Kept,
}
