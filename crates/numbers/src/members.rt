use crate::number_set::NumberSet;

// The members of a set in rising order, from `from` on.
#[derive(Clone, Copy)]
pub struct Members {
    pub(crate) set: NumberSet,
    pub(crate) from: usize,
}
