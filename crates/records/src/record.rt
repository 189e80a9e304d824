use code::Row;

// One record of the input. The eight bytes of a constant are a part of the input.
pub type Record<'a> = Row<&'a [u8; 8]>;
