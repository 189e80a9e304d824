#![tactic(auto)]

mod bodies;
mod operators;
pub mod reader;
pub mod record;

pub use reader::Reader;
pub use record::Record;
