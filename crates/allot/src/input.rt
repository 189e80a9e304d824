ghost use Rattle.std.specs.Prelude.{◌≤◌, length, IfOk};

use std::fs::File;
use std::io;
use std::io::Read;

// No formula is longer than 2,066 bytes, so what lies behind these cannot change the answer.
const MOST: usize = 4096;

// The bytes at the start of an input.
// Room for all of them, and for one more, is made first: a read then asks for all that is left, as an input that keeps the bounds
// of its messages gives no more of one than is asked for, and an input that ends is seen to end with no more room made.
fn start_of<R: Read + Drop>(rt: &HostRuntime, input: R) -> io::Result<Vec<u8>>
    ensures { IfOk result (λ bytes. length bytes.items ≤ 4096) }
{
    let mut bytes = Vec::with_capacity(rt.alloc(), MOST + 1)?;
    input.take(MOST as u64).read_to_end(&mut bytes)?;
    // `take` has read no more than that; the library promises it of known inputs alone, so it is made sure of
    bytes.truncate(MOST);
    Ok(bytes)
}

pub fn from_stdin(rt: &HostRuntime) -> io::Result<Vec<u8>>
    ensures { IfOk result (λ bytes. length bytes.items ≤ 4096) }
{
    start_of(rt, rt.stdin())
}

pub fn from_file(rt: &HostRuntime, path: &str) -> io::Result<Vec<u8>>
    ensures { IfOk result (λ bytes. length bytes.items ≤ 4096) }
{
    start_of(rt, File::open(rt, path)?)
}
