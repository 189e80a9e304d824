#![tactic(auto)]

// Small code, and what is live where in it.
#[cfg(test)]
mod tests;

use code::{Code, Row};
use liveness::Liveness;

// A row does not fit, or there are too many.
#[derive(Clone, Copy, Debug)]
pub struct Unfit;

// Code of these rows.
pub fn build(rows: &[Row]) -> Result<Code, Unfit> {
    let mut code = Code::new(512, rows.len()).ok_or(Unfit)?;
    for row in rows {
        code.push(*row).map_err(|_| Unfit)?;
    }
    Ok(code)
}

// Whether exactly these numbers are live before these rows, each pair a row and a number.
pub fn is_live(found: &Liveness, expected: &[(usize, usize)]) -> bool {
    let there = expected
        .iter()
        .all(|pair| found.before(pair.0).contains(pair.1));
    let total = (0..512).fold(0usize, |total, place| {
        total.wrapping_add(found.before(place).len())
    });
    there && total == expected.len()
}
