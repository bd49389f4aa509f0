// The places that change the set, its count and its size: I1, SZ, L2, I8, I9, I10, D4a, D4b, D6.
ghost use Rattle.std.specs.Prelude.{◌≡◌};
ghost use Rattle.moves.specs.Moves.{l2, placed, i1, sz, i8, i9, i10, d4a, d4b, d6};

use crate::{Seen, ended, going, held_for, is_to, on};
use acts::{Effect, Move};
use names::{Answer, errand, place};

impl Seen {
    // The held node's link is written first, so where prev is that node the swap finds what was just written.
    #[tactic(auto, unfolding(choice::specs::Choice::pick, crate::specs::Moves::l2))]
    pub(super) fn l2(self) -> Move
        ensures { result ≡ l2 self }
    {
        let x = self.worker;
        let held = held_for(x);
        let itself = x.prev == held;
        if (held == 0) | (x.prev == 0) | (!itself & self.bad_link()) {
            return Move::Damaged;
        }
        if itself | is_to(self.word, x.cur) {
            return self.placed(held);
        }
        let aim = Effect::Aim {
            node: held,
            next: x.cur,
        };
        going(x.to(place::F1), aim)
    }

    // L2 done: a dummy goes to B8; an insert takes effect here.
    #[tactic(auto, unfolding(choice::specs::Choice::pick, crate::specs::Moves::placed))]
    fn placed(self, held: u32) -> Move
        ensures { result ≡ placed self held }
    {
        let x = self.worker;
        let effect = Effect::Place {
            node: held,
            next: x.cur,
            prev: x.prev,
        };
        match x.errand {
            errand::DUMMY => going(x.to(place::B8), effect),
            _ => going(x.holding(0).to(place::I8), effect),
        }
    }

    #[tactic(auto, unfolding(choice::specs::Choice::pick, crate::specs::Moves::i1))]
    pub(super) fn i1(self) -> Move
        ensures { result ≡ i1 self }
    {
        let x = self.worker;
        let free = self.word;
        if free == 0 {
            return ended(Answer::NoKeyNode, Effect::Nothing);
        }
        let effect = Effect::TakeKey {
            node: free,
            split: split::regular_key(x.key),
        };
        going(x.holding(free).to(place::SZ), effect)
    }

    // The key's bucket is its remainder by the size, and by 0 the key itself.
    #[tactic(auto, unfolding(crate::specs::Moves::sz))]
    pub(super) fn sz(self) -> Move
        ensures { result ≡ sz self }
    {
        let x = self.worker;
        let bucket = x.key.checked_rem(self.header.size).unwrap_or(x.key);
        on(x.wanting(bucket).to(place::TB))
    }

    #[tactic(auto, unfolding(crate::specs::Moves::i8))]
    pub(super) fn i8(self) -> Move
        ensures { result ≡ i8 self }
    {
        let x = self.worker;
        on(x.remembering(self.header.size).to(place::I9))
    }

    #[tactic(auto, unfolding(choice::specs::Choice::pick, crate::specs::Moves::i9))]
    pub(super) fn i9(self) -> Move
        ensures { result ≡ i9 self }
    {
        let x = self.worker;
        let h = self.header;
        let up = h.counted_up();
        let effect = Effect::Count { value: up.count };
        if h.doubles(x.size, h.count) {
            return going(x.to(place::I10), effect);
        }
        ended(Answer::Yes, effect)
    }

    #[tactic(auto, unfolding(choice::specs::Choice::pick, crate::specs::Moves::i10))]
    pub(super) fn i10(self) -> Move
        ensures { result ≡ i10 self }
    {
        let read = self.worker.size;
        if self.header.size == read {
            let value = read.wrapping_mul(2);
            return ended(Answer::Yes, Effect::Size { value });
        }
        ended(Answer::Yes, Effect::Nothing)
    }

    #[tactic(auto, unfolding(choice::specs::Choice::pick, crate::specs::Moves::d4a))]
    pub(super) fn d4a(self) -> Move
        ensures { result ≡ d4a self }
    {
        let x = self.worker;
        if self.bad_read(x.cur) {
            return Move::Damaged;
        }
        if is_to(self.word, x.next) {
            let mark = Effect::Mark {
                node: x.cur,
                next: x.next,
            };
            return going(x.to(place::D4B), mark);
        }
        on(x.on_errand(errand::KEY).to(place::F1))
    }

    #[tactic(auto, unfolding(choice::specs::Choice::pick, crate::specs::Moves::d4b))]
    pub(super) fn d4b(self) -> Move
        ensures { result ≡ d4b self }
    {
        let x = self.worker;
        if self.bad_read(x.prev) {
            return Move::Damaged;
        }
        if is_to(self.word, x.cur) {
            if x.cur == 0 {
                return Move::Damaged;
            }
            return going(x.to(place::D6), self.unlink());
        }
        on(x.on_errand(errand::EXTRA).to(place::F1))
    }

    #[tactic(auto, unfolding(crate::specs::Moves::d6))]
    pub(super) fn d6(self) -> Move
        ensures { result ≡ d6 self }
    {
        let down = self.header.counted_down();
        ended(Answer::Yes, Effect::Count { value: down.count })
    }
}
