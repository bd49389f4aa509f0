// The kinds of operation. Numbers and no enum, as in place.rt; `StartExactly` says what a start of another is answered.
pub const INSERT: u32 = 1;

pub const FIND: u32 = 2;

pub const DELETE: u32 = 3;
