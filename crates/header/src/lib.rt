// The register's header, by value: its faults, row by row of the scope paper, the load test, and the header changed, each change handing the changed header back.
#![tactic(auto)]

ghost use Rattle.std.specs.Prelude.{◌≡◌};
ghost use Rattle.header.specs.Header.{fresh, sized, counted, counted_up, counted_down, busy_with, busy_without, nodes_of, limit_broken, size_broken, busy_beyond, header_damaged, is_short, missing, doubles};

use names::Answer;
use words::Lengths;

// The register's header: limits M, K, W, L, the size, the count and the set of busy workers.
#[derive(Clone, Copy)]
pub struct Header {
    pub m: u32,
    pub k: u32,
    pub w: u32,
    pub l: u32,
    pub size: u32,
    pub count: u32,
    pub busy: u32,
}

// Each change is a method of its own that hands the changed header back, the form that the scope paper names: two of them differ in a field or in what is done to it.
impl Header {
    // A fresh register's: size 2, count 0, nobody busy. Four numbers, since who asks for them (`prepare`, the line of a schedule) is above this crate.
    pub fn fresh(m: u32, k: u32, w: u32, l: u32) -> Header
        ensures { result ≡ fresh m k w l }
    {
        Header {
            m,
            k,
            w,
            l,
            size: 2,
            count: 0,
            busy: 0,
        }
    }

    // Another size.
    pub fn resized(self, size: u32) -> Header
        ensures { result ≡ sized size self }
    {
        Header { size, ..self }
    }

    // Another count.
    pub fn counting(self, count: u32) -> Header
        ensures { result ≡ counted count self }
    {
        Header { count, ..self }
    }

    // One key more is counted; the count wraps, since it may have passed below zero.
    pub fn counted_up(self) -> Header
        ensures { result ≡ counted_up self }
    {
        self.counting(self.count.wrapping_add(1))
    }

    // One key less is counted, which may be before its insert has counted it.
    pub fn counted_down(self) -> Header
        ensures { result ≡ counted_down self }
    {
        self.counting(self.count.wrapping_sub(1))
    }

    // The worker begins an operation.
    pub fn busy_with(self, worker: u32) -> Header
        ensures { result ≡ busy_with worker self }
    {
        Header {
            busy: sets::with_bit(self.busy, worker),
            ..self
        }
    }

    // The worker's operation ends.
    pub fn busy_without(self, worker: u32) -> Header
        ensures { result ≡ busy_without worker self }
    {
        Header {
            busy: sets::without(self.busy, worker),
            ..self
        }
    }

    // How many nodes there are, N.
    pub fn nodes(self) -> u64
        ensures { result ≡ nodes_of self }
    {
        (self.m as u64) + (self.w as u64) + (self.k as u64)
    }

    // A limit of the scope paper is broken.
    #[tactic(auto, unfolding(crate::specs::Header::limit_broken))]
    pub fn limit_broken(self) -> bool
        ensures { result ≡ limit_broken self }
    {
        !tree::power_up_to(1024, self.m)
            | !matches!(self.k, 1..=4096)
            | !matches!(self.w, 1..=16)
            | !matches!(self.l, 1..=8)
    }

    #[tactic(auto, unfolding(crate::specs::Header::size_broken))]
    fn size_broken(self) -> bool
        ensures { result ≡ size_broken self }
    {
        !tree::power_up_to(self.m, self.size)
    }

    // A word has no bit at 32 or above.
    #[tactic(auto, unfolding(crate::specs::Header::busy_beyond))]
    fn busy_beyond(self) -> bool
        ensures { result ≡ busy_beyond self }
    {
        self.busy
            .checked_shr(self.w)
            .is_some_and(|beyond| 0 < beyond)
    }

    // 12, the header's part.
    #[tactic(auto, unfolding(crate::specs::Header::header_damaged))]
    pub fn damaged(self) -> bool
        ensures { result ≡ header_damaged self }
    {
        self.limit_broken() | self.size_broken() | self.busy_beyond()
    }

    // 11: a lent table has fewer than 3N node words or M bucket words.
    #[tactic(auto, unfolding(crate::specs::Header::is_short))]
    pub fn short(self, lengths: Lengths) -> bool
        ensures { result ≡ is_short self lengths }
    {
        ((lengths.nodes as u64) < self.nodes() * 3) | ((lengths.buckets as u64) < (self.m as u64))
    }

    // A worker or its record that there is not: 12, then 11 where there are too few records or words, then 13.
    #[tactic(auto, unfolding(choice::specs::Choice::pick, crate::specs::Header::missing))]
    pub fn missing(self, few: bool, lengths: Lengths) -> Answer
        ensures { result ≡ missing self few lengths }
    {
        if self.damaged() {
            return Answer::Damaged;
        }
        if few | self.short(lengths) {
            return Answer::Short;
        }
        Answer::NoWorker
    }

    // The load test of figure 5, lines I9 and I10: with its top bit set the old count is negative.
    #[tactic(auto, unfolding(crate::specs::Header::doubles, choice::specs::Choice::pick))]
    pub fn doubles(self, size: u32, old: u32) -> bool
        ensures { result ≡ doubles self size old }
    {
        (0 <= old.cast_signed())
            & old.checked_div(size).is_some_and(|load| self.l < load)
            & (size < self.m)
    }
}
