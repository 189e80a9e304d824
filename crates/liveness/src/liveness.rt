ghost use Rattle.std.specs.Prelude.{◌≡◌, length};

use numbers::NumberSet;

mod ask;
mod find;

// Two arrays, since sweeps go over `before` alone.
// For each row of a piece of code, the numbers live before it and those live after it. It is 64 KiB large, so it is lent and not copied.
#[derive(Drop)]
pub struct Liveness {
    before: [NumberSet; 512],
    after: [NumberSet; 512],
    ghost whole: { length before ≡ 512 },
    ghost full: { length after ≡ 512 },
}
