// The places of an operation, by the labels of the scope paper's steps. What each means is a row of specs/Places.antt.
// Numbers and no enum, here and for errands and kinds: a lent record can hold any number, and `StepExactly` says what an unknown one is answered.
pub const IDLE: u32 = 0;

pub const I1: u32 = 1;

pub const SZ: u32 = 2;

pub const TB: u32 = 3;

pub const B2: u32 = 4;

pub const B4: u32 = 5;

pub const F1: u32 = 6;

pub const F2: u32 = 7;

pub const F3: u32 = 8;

pub const F4: u32 = 9;

pub const L2: u32 = 10;

pub const B8: u32 = 11;

pub const I8: u32 = 12;

pub const I9: u32 = 13;

pub const I10: u32 = 14;

pub const D4A: u32 = 15;

pub const D4B: u32 = 16;

pub const D6: u32 = 17;
