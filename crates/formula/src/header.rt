ghost use Rattle.std.specs.Prelude.{◌^◌, ◌<◌, ◌≤◌};

mod ask;
mod limits;
mod read;

pub use read::read_header;

// A formula's header, checked.
#[derive(Clone, Copy)]
pub struct Header {
    // registers in use of class 0 and of class 1
    k0: u8,
    k1: u8,
    // how many values and how many records there are
    values: u16,
    records: u16,
    // the class of value 32 + i is bit i
    classes: u128,
    ghost k0_least: { 1 ≤ k0 },
    ghost k0_most: { k0 ≤ 16 },
    ghost k1_least: { 1 ≤ k1 },
    ghost k1_most: { k1 ≤ 16 },
    ghost few_values: { values ≤ 96 },
    ghost some_records: { 1 ≤ records },
    ghost few_records: { records ≤ 128 },
    ghost padded: { classes < 2 ^ values },
}
