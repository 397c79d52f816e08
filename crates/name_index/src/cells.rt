// How many cells an index has, and what an empty one holds. specs/Index.antt has the same numbers.
pub const CELLS: usize = 1024;

pub const EMPTY: u16 = 65535;
