// A shortest way from the first row to one that reads a number.
mod find;
mod rank;
mod undefined;
mod walk;

pub use find::find_way;
pub use undefined::{Undefined, find_undefined, first_undefined};
