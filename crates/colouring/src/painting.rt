// Which register each group gets: that of the group w is at w of an array of 512.
ghost use Rattle.std.specs.Prelude.{◌≡◌, ℕ, ◌<◌, not, length, drop, None, cond, Some, IfSome, slice_index_or};
ghost use Rattle.graph.specs.Counting.{first};
ghost use Rattle.numbers.specs.Sets.{has};
ghost use Rattle.session_laws.specs.Base.{fixed};
ghost use Rattle.session_laws.specs.Colouring.{none, taken, or_none, lowest_free as lowest_free_of, own_number as own_number_of, painted};
ghost use Rattle.standing.specs.Standing.{base_of};
ghost use Rattle.colouring.specs.Painting.{merged_under, read_at, Small};

use numbers::NumberSet;
use standing::Standing;
use std::array;

// The registers of the neighbours of v.
fn used_near(standing: &Standing, groups: &[Option<u8>; 512], v: usize) -> NumberSet
    ensures { (r : ℕ) → r < 255 → has result r ≡ taken (merged_under standing.now) (read_at groups.now) v r }
{
    let row = standing.board().row(v);
    let mut used = NumberSet::new();
    for w in row.iter() {
        if let Some(register) = groups[w] {
            used.insert(usize::from(register));
        }
    }
    used
}

// The lowest register of the bank that is not used.
fn lowest_free(standing: &Standing, used: &NumberSet) -> Option<usize>
    ensures { result ≡ first (λ r. not (has used.now r)) (base_of standing.now).first (base_of standing.now).registers }
{
    let start = standing.first();
    let mut bank = start..start + standing.registers();
    bank.find(|r| !used.contains(*r))
}

// The lowest register that no coloured neighbour of v has. Here and below `as` narrows a number that is proved to fit.
fn register_for(standing: &Standing, groups: &[Option<u8>; 512], v: usize) -> Option<u8>
    ensures lowest { or_none result ≡ lowest_free_of (base_of standing.now) (merged_under standing.now) (read_at groups.now) v }
    ensures known { IfSome result (λ r. r < none) }
{
    let used = used_near(standing, groups, v);
    let register = lowest_free(standing, &used)?;
    Some(register as u8)
}

// Fixed vertices have their own number.
fn own_number(standing: &Standing, v: usize) -> Option<u8>
    ensures { result ≡ cond (fixed (base_of standing.now) v) (Some v) None }
{
    if standing.is_fixed(v) {
        Some(v as u8)
    } else {
        None
    }
}

// Gives each removed group, the last removed first, the lowest register that no coloured group joined to it has.
// It takes the array and where the groups in it begin, as they are kept. A register that is given is never the number
// that stands for none.
pub fn paint(standing: &Standing, removed: &[usize; 512], top: usize) -> [Option<u8>; 512]
    requires { Small removed.now top }
    ensures each { (w : ℕ) → read_at result w ≡ painted (base_of standing.now) (merged_under standing.now) (own_number_of (base_of standing.now)) (drop top removed.now) w }
    ensures known { (w : ℕ) → IfSome (slice_index_or result w None) (λ r. r < none) }
{
    let mut groups = array::from_fn(|v| own_number(standing, v));
    let last = removed.get(top..).unwrap_or(&[]);
    for v in last {
        groups[*v] = register_for(standing, &groups, *v);
    }
    groups
}
