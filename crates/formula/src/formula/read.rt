ghost use Rattle.std.specs.Prelude.{◌≡◌, ◌+◌, [], MatchResult};
ghost use Rattle.code.specs.Codes.{rows_of};
ghost use Rattle.liveness.specs.Laws.{AllDefined};
ghost use Rattle.liveness.specs.Ways.{LowestUndefined};
ghost use Rattle.formula.specs.Faults.{number_of, place_of};
ghost use Rattle.formula.specs.Formulas.{ended, formula_at};
ghost use Rattle.formula.specs.Laws.{AcceptsWritings, DistinctWritings};
ghost use Rattle.formula.specs.Outcome.{formula_read, read_as, Answered};
ghost use Rattle.formula.specs.Worked.{Worked};

use super::Formula;
use super::rows::{Body, read_rows};
use crate::fault::FormulaFault;
use crate::header::{Header, read_header};
use code::Code;
use liveness::first_undefined;

// Code with room for the formula's records and no row yet.
fn empty_code(header: &Header) -> Code
    ensures { (rows_of result ≡ []) × (result.reach ≡ header.now.records) × (result.numbers ≡ 32 + header.now.values) }
{
    Code::new(
        32 + usize::from(header.values()),
        usize::from(header.records()),
    )
    .unwrap()
}

// Nothing remains behind the place where the records end, and the last of them goes nowhere.
fn last_record(len: usize, end: usize, closed: bool, last: usize) -> Result<(), FormulaFault>
    ensures { read_as (λ u. u) result len ≡ ended len end closed last }
{
    if end < len {
        return Err(FormulaFault::BytesRemain { at: end });
    }
    if !closed {
        return Err(FormulaFault::LastGoesOn { at: last });
    }
    Ok(())
}

// The formula, unless one of its values is live before the first row.
fn last_rule(formula: Formula) -> Result<Formula, FormulaFault>
    ensures { MatchResult result (λ f. (f ≡ formula) × AllDefined (rows_of formula.code)) (λ e. (number_of e ≡ 12) × LowestUndefined (rows_of formula.code) (place_of e)) }
{
    first_undefined(formula.code()).map_or(
        Ok(formula),
        |value| Err(FormulaFault::UsedBeforeSet { value }),
    )
}

// The formula that these bytes are by every rule but the last: whether values are set before they are used is not looked at.
#[tactic(auto, unfolding(crate::specs::Formulas::formula_at))]
pub fn read_written(bytes: &[u8]) -> Result<Formula, FormulaFault>
    ensures { formula_read bytes.now result ≡ formula_at bytes.now }
{
    let header = read_header(bytes)?;
    let Body {
        code,
        starts,
        last,
        closed,
        end,
    } = read_rows(&header.limits(), bytes, header.end(), empty_code(&header))?;
    last_record(bytes.len(), end, closed, last)?;
    Ok(Formula {
        header,
        code,
        starts,
    })
}

// The formula that these bytes are, or the rule that they break and its place.
pub fn read_formula(bytes: &[u8]) -> Result<Formula, FormulaFault>
    ensures answer { Answered (formula_at bytes.now) result }
    ensures accepts { AcceptsWritings }
    ensures distinct { DistinctWritings }
    ensures worked { Worked }
{
    last_rule(read_written(bytes)?)
}
