ghost use Rattle.std.specs.Prelude.{◌≡◌, length};

mod algebra;
mod elements;
mod picking;
mod queries;
mod ranges;

// A set of numbers below `NumberSet::LIMIT`: n is a member where digit n % 64 of word n / 64 is set.
#[derive(Clone, Copy, Debug, Eq, PartialEq)]
pub struct NumberSet {
    // an array, since the library takes no heap
    words: [u64; 8],
    ghost whole: { length words ≡ 8 },
}
