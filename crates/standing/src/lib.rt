#![tactic(auto)]

// The standing graph of a session: what the calls speak of, and the tests that they are granted on.
mod standing;

pub use standing::Standing;
