// One worker's record, by value: what it holds, and the record changed, each change handing the changed record back.
#![tactic(auto)]

ghost use Rattle.std.specs.Prelude.{◌≡◌};
ghost use Rattle.record.specs.Fields.{to, with_errand, with_wanted, with_making, with_size, with_start, with_held, with_dummy};
ghost use Rattle.record.specs.Worker.{fresh, idle, begun, coming_to, reading, ticked, holds};

use names::{errand, kind, place};
use words::Link;

// One worker's record: where it is in its operation, and what it remembers from the steps before.
#[derive(Clone, Copy, Default, PartialEq, Eq)]
pub struct Worker {
    pub place: u32,
    pub errand: u32,
    pub kind: u32,
    pub key: u32,
    pub wanted: u32,
    pub making: u32,
    pub size: u32,
    pub start: u32,
    pub prev: u32,
    pub cur: u32,
    pub next: u32,
    pub marked: bool,
    pub held: u32,
    pub dummy: u32,
    pub steps: u32,
}

// The nodes that a record holds: an insert's key node, and the dummy that is being made.
// No option: 0 is no node, as in the paper's words, and the tables' `put` writes nothing there.
#[derive(Clone, Copy)]
pub struct Held {
    pub key: u32,
    pub dummy: u32,
}

// Each change is a method of its own that hands the changed record back, the form that the scope paper names: two of them differ in a field.
impl Worker {
    // A record of this place, kind and key, all else 0.
    fn fresh(place: u32, kind: u32, key: u32) -> Worker
        ensures { result ≡ fresh place kind key }
    {
        Worker {
            place,
            errand: errand::KEY,
            kind,
            key,
            ..Self::default()
        }
    }

    // The record of a worker that has no operation: all zeros.
    pub fn idle() -> Worker
        ensures { result ≡ idle }
    {
        Worker::default()
    }

    // The record as an operation starts: an insert at I1, find and delete at SZ.
    #[tactic(auto, unfolding(choice::specs::Choice::pick, crate::specs::Worker::begun))]
    pub fn begun(kind: u32, key: u32) -> Worker
        ensures { result ≡ begun kind key }
    {
        match kind {
            kind::INSERT => Worker::fresh(place::I1, kind, key),
            _ => Worker::fresh(place::SZ, kind, key),
        }
    }

    // The worker goes to this place.
    pub fn to(self, place: u32) -> Worker
        ensures { result ≡ to place self }
    {
        Worker { place, ..self }
    }

    // Its search is for this: the key, a dummy, or a delete's one search more.
    pub fn on_errand(self, errand: u32) -> Worker
        ensures { result ≡ with_errand errand self }
    {
        Worker { errand, ..self }
    }

    // The bucket that the key wants.
    pub fn wanting(self, bucket: u32) -> Worker
        ensures { result ≡ with_wanted bucket self }
    {
        Worker {
            wanted: bucket,
            ..self
        }
    }

    // The bucket that is to be made.
    pub fn to_make(self, bucket: u32) -> Worker
        ensures { result ≡ with_making bucket self }
    {
        Worker {
            making: bucket,
            ..self
        }
    }

    // The size that I8 read, remembered for I9 and I10.
    pub fn remembering(self, size: u32) -> Worker
        ensures { result ≡ with_size size self }
    {
        Worker { size, ..self }
    }

    // The dummy at which its searches start.
    pub fn searching_from(self, dummy: u32) -> Worker
        ensures { result ≡ with_start dummy self }
    {
        Worker {
            start: dummy,
            ..self
        }
    }

    // The search comes to cur, after prev.
    pub fn coming_to(self, prev: u32, cur: u32) -> Worker
        ensures { result ≡ coming_to prev cur self }
    {
        Worker { prev, cur, ..self }
    }

    // The link that F2 read from cur: its next node, and whether it is marked.
    pub fn reading(self, link: u32) -> Worker
        ensures { result ≡ reading link self }
    {
        let Link { next, marked } = Link::from(link);
        Worker {
            next,
            marked,
            ..self
        }
    }

    // The key node that an insert holds; 0 once it is on the chain.
    pub fn holding(self, node: u32) -> Worker
        ensures { result ≡ with_held node self }
    {
        Worker { held: node, ..self }
    }

    // The dummy of the bucket that is being made; 0 once the bucket has it.
    pub fn with_dummy(self, node: u32) -> Worker
        ensures { result ≡ with_dummy node self }
    {
        Worker {
            dummy: node,
            ..self
        }
    }

    // One step more is counted, up to the ceiling.
    #[tactic(auto, unfolding(choice::specs::Choice::pick, crate::specs::Worker::tick))]
    pub fn ticked(self) -> Worker
        ensures { result ≡ ticked self }
    {
        Worker {
            steps: self.steps.saturating_add(1),
            ..self
        }
    }

    // The nodes that this record holds, over its place, errand and kind alone.
    #[tactic(auto, using(names::proofs::Places::searches_within, names::proofs::Places::holds_within), unfolding(choice::specs::Choice::pick, crate::specs::Worker::held_key, crate::specs::Worker::held_dummy))]
    pub fn holds(self) -> Held
        ensures { result ≡ holds self }
    {
        let searching = matches!(self.place, place::F1..=place::L2);
        let key_held = (self.kind == kind::INSERT)
            & matches!(self.place, place::SZ..=place::B8)
            & !(searching & (self.errand == errand::EXTRA));
        let dummy_held = searching & (self.errand == errand::DUMMY);
        Held {
            key: if key_held { self.held } else { 0 },
            dummy: if dummy_held { self.dummy } else { 0 },
        }
    }
}
