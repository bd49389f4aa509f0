// What one step does, place by place, decided from numbers alone: the header, the record and the word that the step read.
#![tactic(auto)]

ghost use Rattle.std.specs.Prelude.{◌≡◌, ◌==◌, ◌||◌};
ghost use Rattle.words.specs.Words.{is_to};
ghost use Rattle.moves.specs.Moves.{on, bad_link, want_of, held_for, not_found, found, found_key, comes, f1, f2, f3, judged, f4, decided};

use acts::{Effect, Move};
use header::Header;
use names::{Answer, errand, kind, place};
use record::Worker;
use std::cmp::Ordering;
use words::Link;

mod buckets;
mod changes;

// What a step sees: what it is handed, the shared word that it read, and at F3 the split key of cur; 0 and no Option where nothing is read, as `seen_by` has it.
#[derive(Clone, Copy)]
pub struct Seen {
    pub header: Header,
    pub worker: Worker,
    pub word: u32,
    pub split: u32,
}

// The link word is (0, n): unmarked, with n its next node. Taken apart and not packed, so that no number is cut.
#[tactic(auto, unfolding(words::specs::Words::is_to))]
fn is_to(link: u32, n: u32) -> bool
    ensures { result ≡ is_to link n }
{
    let unmarked = Link {
        next: n,
        marked: false,
    };
    Link::from(link) == unmarked
}

// The wanted split key: a dummy's, or the key's.
#[tactic(auto, unfolding(choice::specs::Choice::pick, crate::specs::Moves::want_of))]
fn want_of(x: Worker) -> u32
    ensures { result ≡ want_of x }
{
    match x.errand {
        errand::DUMMY => split::dummy_key(x.making),
        _ => split::regular_key(x.key),
    }
}

// The node that L2 puts on the chain.
#[tactic(auto, unfolding(choice::specs::Choice::pick, crate::specs::Moves::held_for))]
fn held_for(x: Worker) -> u32
    ensures { result ≡ held_for x }
{
    match x.errand {
        errand::DUMMY => x.dummy,
        _ => x.held,
    }
}

// The operation goes on with this record.
fn going(worker: Worker, effect: Effect) -> Move
    ensures { result ≡ Move.Going worker effect }
{
    Move::Going { worker, effect }
}

// The operation goes on with this record, and nothing is written.
fn on(worker: Worker) -> Move
    ensures { result ≡ on worker }
{
    going(worker, Effect::Nothing)
}

// The operation ends with this answer.
fn ended(answer: Answer, effect: Effect) -> Move
    ensures { result ≡ Move.Ended answer effect }
{
    Move::Ended { answer, effect }
}

// The search ended without the wanted split key.
#[tactic(auto, unfolding(choice::specs::Choice::pick, crate::specs::Moves::not_found))]
fn not_found(x: Worker, effect: Effect) -> Move
    ensures { result ≡ not_found x effect }
{
    match (x.errand, x.kind) {
        (errand::EXTRA, _) => going(x.to(place::D6), effect),
        (errand::DUMMY, _) | (_, kind::INSERT) => going(x.to(place::L2), effect),
        _ => ended(Answer::No, effect),
    }
}

// The search ended at cur: another worker's dummy is used in the place of the one held.
#[tactic(auto, unfolding(choice::specs::Choice::pick, crate::specs::Moves::found))]
fn found(x: Worker) -> Move
    ensures { result ≡ found x }
{
    match x.errand {
        errand::EXTRA => on(x.to(place::D6)),
        errand::KEY => found_key(x),
        _ if x.dummy == 0 => Move::Damaged,
        _ => going(
            x.with_dummy(x.cur).to(place::B8),
            Effect::Free { node: x.dummy },
        ),
    }
}

// The key is there: no to an insert, whose node the end frees; yes to a find; a delete goes to D4a.
#[tactic(auto, unfolding(choice::specs::Choice::pick, crate::specs::Moves::found_key))]
fn found_key(x: Worker) -> Move
    ensures { result ≡ found_key x }
{
    match x.kind {
        kind::INSERT if x.held == 0 => Move::Damaged,
        kind::INSERT => ended(Answer::No, Effect::Nothing),
        kind::FIND => ended(Answer::Yes, Effect::Nothing),
        _ => on(x.to(place::D4A)),
    }
}

// The search comes to cur, after prev: the end of the chain, or F2.
#[tactic(auto, unfolding(choice::specs::Choice::pick, crate::specs::Moves::comes))]
fn comes(x: Worker, prev: u32, cur: u32, effect: Effect) -> Move
    ensures { result ≡ comes x prev cur effect }
{
    let there = x.coming_to(prev, cur);
    if cur == 0 {
        return not_found(there, effect);
    }
    going(there.to(place::F2), effect)
}

impl Seen {
    // A link read above 2N + 1.
    #[tactic(auto, unfolding(crate::specs::Moves::bad_link))]
    fn bad_link(self) -> bool
        ensures { result ≡ bad_link self }
    {
        self.header.nodes() * 2 + 1 < self.word as u64
    }

    // The link is to be read from this node: there is none, or what was read is above 2N + 1.
    fn bad_read(self, node: u32) -> bool
        ensures { result ≡ (node == 0 || bad_link self) }
    {
        (node == 0) | self.bad_link()
    }

    // cur leaves the chain: prev's link goes to next.
    fn unlink(self) -> Effect
        ensures { let x = self.worker in result ≡ Effect.Unlink x.prev x.next x.cur self.header.busy }
    {
        let x = self.worker;
        Effect::Unlink {
            prev: x.prev,
            next: x.next,
            node: x.cur,
            busy: self.header.busy,
        }
    }

    #[tactic(auto, unfolding(choice::specs::Choice::pick, crate::specs::Moves::f1))]
    fn f1(self) -> Move
        ensures { result ≡ f1 self }
    {
        let x = self.worker;
        if self.bad_read(x.start) {
            return Move::Damaged;
        }
        comes(x, x.start, Link::from(self.word).next, Effect::Nothing)
    }

    #[tactic(auto, unfolding(choice::specs::Choice::pick, crate::specs::Moves::f2))]
    fn f2(self) -> Move
        ensures { result ≡ f2 self }
    {
        let x = self.worker;
        if self.bad_read(x.cur) {
            return Move::Damaged;
        }
        on(x.reading(self.word).to(place::F3))
    }

    #[tactic(auto, unfolding(choice::specs::Choice::pick, crate::specs::Moves::f3))]
    fn f3(self) -> Move
        ensures { result ≡ f3 self }
    {
        let x = self.worker;
        if self.bad_read(x.prev) {
            return Move::Damaged;
        }
        if is_to(self.word, x.cur) {
            return self.judged();
        }
        on(x.to(place::F1))
    }

    // prev's link was unmarked with next cur: cur was marked at F2, or its split key is compared.
    #[tactic(auto, unfolding(choice::specs::Choice::pick, crate::specs::Moves::judged))]
    fn judged(self) -> Move
        ensures { result ≡ judged self }
    {
        let x = self.worker;
        if x.marked {
            return on(x.to(place::F4));
        }
        if x.cur == 0 {
            return Move::Damaged;
        }
        match self.split.cmp(&want_of(x)) {
            Ordering::Less => comes(x, x.cur, x.next, Effect::Nothing),
            Ordering::Equal => found(x),
            Ordering::Greater => not_found(x, Effect::Nothing),
        }
    }

    #[tactic(auto, unfolding(choice::specs::Choice::pick, crate::specs::Moves::f4))]
    fn f4(self) -> Move
        ensures { result ≡ f4 self }
    {
        let x = self.worker;
        if self.bad_read(x.prev) {
            return Move::Damaged;
        }
        if is_to(self.word, x.cur) {
            if x.cur == 0 {
                return Move::Damaged;
            }
            return comes(x, x.prev, x.next, self.unlink());
        }
        on(x.to(place::F1))
    }

    // One step's decision, at the record's place; a record at none of these is damaged.
    // A match, since the place is a number that a lent record holds.
    #[tactic(auto, unfolding(choice::specs::Choice::pick, crate::specs::Moves::decided, crate::specs::Moves::decided_at))]
    pub fn decide(self) -> Move
        ensures { result ≡ decided self }
    {
        match self.worker.place {
            place::I1 => self.i1(),
            place::SZ => self.sz(),
            place::TB => self.tb(),
            place::B2 => self.b2(),
            place::B4 => self.b4(),
            place::F1 => self.f1(),
            place::F2 => self.f2(),
            place::F3 => self.f3(),
            place::F4 => self.f4(),
            place::L2 => self.l2(),
            place::B8 => self.b8(),
            place::I8 => self.i8(),
            place::I9 => self.i9(),
            place::I10 => self.i10(),
            place::D4A => self.d4a(),
            place::D4B => self.d4b(),
            place::D6 => self.d6(),
            _ => Move::Damaged,
        }
    }
}
