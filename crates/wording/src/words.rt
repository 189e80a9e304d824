ghost use Rattle.std.specs.Prelude.{IfOk, string_bytes};
ghost use Rattle.wording.specs.Rules.{rule, Begins};

use crate::input::Input;
use formula::FormulaFault;
use std::alloc::{AllocError, Global};

// The rule that is broken and its details as one line.
fn joined(heap: Global, fault: FormulaFault, more: &str) -> Result<String, AllocError>
    ensures { IfOk result (λ s. Begins (rule fault) (string_bytes s)) }
{
    format!(in heap; "{fault}: {more}\n")
}

// The rule that the input breaks, in words. The wording is free: proved is only that it begins with the fault's own rule.
pub fn explain(heap: Global, bytes: &[u8], fault: FormulaFault) -> Result<String, AllocError>
    ensures { IfOk result (λ s. Begins (rule fault) (string_bytes s)) }
{
    let more = Input { heap, bytes }.detail(fault)?;
    joined(heap, fault, more.as_str())
}
