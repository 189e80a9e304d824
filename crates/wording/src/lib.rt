#![tactic(auto)]

mod details;
mod input;
mod record;
mod route;
pub mod words;

pub use words::explain;
