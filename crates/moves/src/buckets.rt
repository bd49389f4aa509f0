// The places that find a bucket and make it: TB, B2, B4, B8.
ghost use Rattle.std.specs.Prelude.{◌≡◌};
ghost use Rattle.moves.specs.Moves.{bad_bucket, tb, b2, b4, b8};

use crate::{Seen, ended, going, on};
use acts::{Effect, Move};
use names::{Answer, errand, kind, place};

impl Seen {
    // A bucket word read above N.
    fn bad_bucket(self) -> bool
        ensures { result ≡ bad_bucket self }
    {
        self.header.nodes() < self.word as u64
    }

    #[tactic(auto, unfolding(choice::specs::Choice::pick, crate::specs::Moves::tb))]
    pub(super) fn tb(self) -> Move
        ensures { result ≡ tb self }
    {
        let x = self.worker;
        if self.bad_bucket() {
            return Move::Damaged;
        }
        if self.word == 0 {
            return on(x.to_make(x.wanted).to(place::B2));
        }
        on(
            x.on_errand(errand::KEY)
                .searching_from(self.word)
                .to(place::F1),
        )
    }

    #[tactic(auto, unfolding(choice::specs::Choice::pick, crate::specs::Moves::b2))]
    pub(super) fn b2(self) -> Move
        ensures { result ≡ b2 self }
    {
        let x = self.worker;
        if self.bad_bucket() {
            return Move::Damaged;
        }
        if self.word == 0 {
            return on(x.to_make(tree::parent(x.making)));
        }
        on(x.searching_from(self.word).to(place::B4))
    }

    #[tactic(auto, unfolding(choice::specs::Choice::pick, crate::specs::Moves::b4))]
    pub(super) fn b4(self) -> Move
        ensures { result ≡ b4 self }
    {
        let x = self.worker;
        let free = self.word;
        if free == 0 {
            if (x.kind == kind::INSERT) & (x.held == 0) {
                return Move::Damaged;
            }
            return ended(Answer::NoDummy, Effect::Nothing);
        }
        let effect = Effect::TakeDummy {
            node: free,
            split: split::dummy_key(x.making),
        };
        going(
            x.with_dummy(free).on_errand(errand::DUMMY).to(place::F1),
            effect,
        )
    }

    #[tactic(auto, unfolding(choice::specs::Choice::pick, crate::specs::Moves::b8))]
    pub(super) fn b8(self) -> Move
        ensures { result ≡ b8 self }
    {
        let x = self.worker;
        if x.dummy == 0 {
            return Move::Damaged;
        }
        let effect = Effect::Store {
            bucket: x.making,
            node: x.dummy,
        };
        let made = x.with_dummy(0);
        if x.making == x.wanted {
            return going(made.to(place::TB), effect);
        }
        let next = tree::next_down(x.wanted, x.making);
        going(made.to_make(next).to(place::B2), effect)
    }
}
