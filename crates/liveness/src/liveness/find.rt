// Live numbers from the rows of code.
ghost use Rattle.std.specs.Prelude.{◌≡◌, ℕ, Decides, MatchOption};
ghost use Rattle.code.specs.Codes.{rows_of};
ghost use Rattle.liveness.specs.Families.{in_set, ahead};
ghost use Rattle.liveness.specs.Found.{before_of, after_of, undefined_in};
ghost use Rattle.liveness.specs.Laws.{Laws, AllDefined};
ghost use Rattle.liveness.specs.Live.{LiveBefore, LiveAfter};
ghost use Rattle.liveness.specs.Ways.{LowestUndefined};

use super::Liveness;
use crate::flow::set_after;
use crate::sweep::settle;
use code::Code;
use numbers::NumberSet;

// Fills in what is live after each row.
fn look_ahead(code: &Code, before: &[NumberSet; 512], after: &mut [NumberSet; 512])
    ensures { (i v : ℕ) → in_set after.new i v ≡ ahead (rows_of code.now) i (λ j. in_set before.now j v) }
{
    for (place, set) in after.iter_mut().enumerate() {
        *set = set_after(code, before, place);
    }
}

impl Liveness {
    // What is live before and after each row: exactly what the paths say. The laws hold of every code.
    pub fn of(code: &Code) -> Liveness
        ensures before { (i v : ℕ) → Decides (before_of result i v) (LiveBefore (rows_of code.now) i v) }
        ensures after { (i v : ℕ) → Decides (after_of result i v) (LiveAfter (rows_of code.now) i v) }
        ensures undefined { MatchOption (undefined_in result) (AllDefined (rows_of code.now)) (LowestUndefined (rows_of code.now)) }
        ensures laws { Laws (rows_of code.now) }
    {
        let mut before = [NumberSet::new(); 512];
        settle(code, &mut before);
        let mut after = [NumberSet::new(); 512];
        look_ahead(code, &before, &mut after);
        Liveness { before, after }
    }
}
