#![tactic(auto)]

// The graph of a session, as rows: the graph that it was opened over, and what merging has made of it.
mod board;
mod rows;

pub use board::Board;
