ghost use Rattle.std.specs.Prelude.{◌≡◌, ℕ, ◌<◌, ◌≤◌, length, drop, slice_index};
ghost use Rattle.colouring.specs.Painting.{read_at, member_register};

use standing::Standing;

// What the table of registers has for none.
const NONE: u8 = 255;

// Writes the register of each member of each group; the bytes behind the first 512 stay.
pub fn fill(standing: &Standing, groups: &[Option<u8>; 512], table: &mut [u8])
    requires { 512 ≤ length table.old }
    ensures each { (v : ℕ) → v < 512 → slice_index table.new v ≡ member_register standing.now (read_at groups.now) v }
    ensures rest { drop 512 table.new ≡ drop 512 table.old }
{
    for (v, register) in table[..512].iter_mut().enumerate() {
        *register = register_of(standing, groups, v);
    }
}

fn register_of(standing: &Standing, groups: &[Option<u8>; 512], v: usize) -> u8
    ensures { result ≡ member_register standing.now (read_at groups.now) v }
{
    if !standing.board().is_vertex(v) {
        return NONE;
    }
    groups
        .get(standing.group(v))
        .copied()
        .flatten()
        .unwrap_or(NONE)
}
