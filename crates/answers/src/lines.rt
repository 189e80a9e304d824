ghost use Rattle.std.specs.Prelude.{◌≡◌, length, IfOk, string_bytes};
ghost use Rattle.answers.specs.Lines.{accepted_lines, refused_line};
ghost use Rattle.code.specs.Codes.{rows_of, moves_in};
ghost use Rattle.formula.specs.Faults.{number_of, place_of};

use formula::{Formula, FormulaFault};
use std::alloc::{AllocError, Global};

fn three_lines(
    heap: Global,
    records: usize,
    values: u16,
    moves: usize,
) -> Result<String, AllocError>
    ensures { IfOk result (λ s. string_bytes s ≡ accepted_lines records values moves) }
{
    format!(in heap; "records {records}\nvalues {values}\nmoves {moves}\n")
}

fn one_line(heap: Global, number: u8, place: usize) -> Result<String, AllocError>
    ensures { IfOk result (λ s. string_bytes s ≡ refused_line number place) }
{
    format!(in heap; "refused {number} at {place}\n")
}

// The lines for a formula in order: how many records, values and moves it has.
pub fn accepted(heap: Global, formula: &Formula) -> Result<String, AllocError>
    ensures { IfOk result (λ s. string_bytes s ≡ accepted_lines (length (rows_of formula.now.code)) formula.now.header.values (moves_in (rows_of formula.now.code))) }
{
    three_lines(
        heap,
        formula.code().len(),
        formula.header().values(),
        formula.moves(),
    )
}

// The line for a refusal: its number and its place.
pub fn refused(heap: Global, fault: FormulaFault) -> Result<String, AllocError>
    ensures { IfOk result (λ s. string_bytes s ≡ refused_line (number_of fault) (place_of fault)) }
{
    one_line(heap, fault.number(), fault.place())
}
