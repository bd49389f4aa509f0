// What a search is for: the operation's own key, a dummy that is being made, or a delete's one search more. Numbers and no enum, as in place.rt.
pub const KEY: u32 = 0;

pub const DUMMY: u32 = 1;

pub const EXTRA: u32 = 2;
