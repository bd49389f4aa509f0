// The scope paper's names: places, errands, kinds of operation, and what a call returns.
#![tactic(auto)]

ghost use Rattle.std.specs.Prelude.{◌≡◌};
ghost use Rattle.names.specs.Names.{number_of, refuses, ends, goes_on};

pub mod errand;
pub mod kind;
pub mod place;

// The largest key: figure 2 sets bit 31, and larger keys would share split keys.
pub const KEY_LIMIT: u32 = 2147483647;

// What a call returns, in the scope paper's order of numbers.
#[derive(Clone, Copy)]
pub enum Answer {
    Going = 0,
    Yes = 1,
    No = 2,
    Limit = 10,
    Short = 11,
    Damaged = 12,
    NoWorker = 13,
    KeyAbove = 14,
    IsBusy = 15,
    IsIdle = 16,
    NoKind = 17,
    NoKeyNode = 18,
    NoDummy = 19,
}

impl Answer {
    // The scope paper's number.
    pub fn number(self) -> u32
        ensures { result ≡ number_of self }
    {
        self as u32
    }

    // The call is refused: it changes no word, and hands header and record back as they came.
    pub fn refuses(self) -> bool
        ensures { result ≡ refuses self }
    {
        matches!(
            self,
            Answer::Limit
                | Answer::Short
                | Answer::Damaged
                | Answer::NoWorker
                | Answer::KeyAbove
                | Answer::IsBusy
                | Answer::IsIdle
                | Answer::NoKind
        )
    }

    // The operation has ended.
    pub fn ends(self) -> bool
        ensures { result ≡ ends self }
    {
        matches!(
            self,
            Answer::Yes | Answer::No | Answer::NoKeyNode | Answer::NoDummy
        )
    }

    // Started, stepped or prepared, and nothing ended.
    pub fn goes_on(self) -> bool
        ensures { result ≡ goes_on self }
    {
        !(self.refuses() | self.ends())
    }
}
