#![tactic(auto)]

pub mod fault;
pub mod formula;
pub mod header;

pub use fault::FormulaFault;
pub use formula::{Formula, read_formula, read_written};
pub use header::Header;
