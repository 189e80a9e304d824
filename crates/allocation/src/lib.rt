#![tactic(auto)]

// What allocation means: definitions and theorems. There is nothing to run: each function's contract is a theorem, so that none goes unproved.
ghost use Rattle.allocation.specs.Worked.{Worked as WorkedFormulas};

// What becomes of two formulas, worked through.
pub fn worked()
    ensures { WorkedFormulas }
{}
