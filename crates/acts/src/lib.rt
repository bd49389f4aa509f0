// What a step can do: its one write to shared memory, and what becomes of the operation. The places decide it, the writes carry it out.
// And what a call hands back.
#![tactic(auto)]

ghost use Rattle.std.specs.Prelude.{◌≡◌};
ghost use Rattle.acts.specs.Acts.{answered, handed_back};

use header::Header;
use names::Answer;
use record::Worker;

// The write of one step, by what it does to shared memory.
// A key node and a dummy are taken by two effects, since an insert begins with the one and not with the other.
#[derive(Clone, Copy)]
pub enum Effect {
    Nothing,
    // I1: the key node is taken, with its split key.
    TakeKey {
        node: u32,
        split: u32,
    },
    // B4: the dummy node is taken, with its split key.
    TakeDummy {
        node: u32,
        split: u32,
    },
    // The dummy that another worker made first is free.
    Free {
        node: u32,
    },
    // L2 failed: the held node's link is written all the same.
    Aim {
        node: u32,
        next: u32,
    },
    // L2 done: the held node is on the chain, between prev and next.
    Place {
        node: u32,
        next: u32,
        prev: u32,
    },
    // D4a done: the node is marked.
    Mark {
        node: u32,
        next: u32,
    },
    // F4, D4b done: the node is off the chain and waits for the busy workers.
    Unlink {
        prev: u32,
        next: u32,
        node: u32,
        busy: u32,
    },
    // B8: the bucket is set.
    Store {
        bucket: u32,
        node: u32,
    },
    // I9, D6: the shared count.
    Count {
        value: u32,
    },
    // I10: the size.
    Size {
        value: u32,
    },
}

// What is decided: damaged words, or the record that goes on, or the answer that ends the operation, with the write.
// An enum of its own and no `Result`, since these are three and the definitions name each.
#[derive(Clone, Copy)]
pub enum Move {
    Damaged,
    Going { worker: Worker, effect: Effect },
    Ended { answer: Answer, effect: Effect },
}

// What a call hands back beside a record; an ended answer gives the operation's steps, and any other 0, as C reads the reply.
#[derive(Clone, Copy)]
pub struct Called {
    pub answer: Answer,
    pub steps: u32,
    pub header: Header,
}

// What a start or a step hands back.
#[derive(Clone, Copy)]
pub struct Outcome {
    pub called: Called,
    pub worker: Worker,
}

impl Called {
    // An answer that tells no steps.
    pub fn answered(answer: Answer, header: Header) -> Called
        ensures { result ≡ answered answer header }
    {
        Called {
            answer,
            steps: 0,
            header,
        }
    }
}

impl Outcome {
    // Header and record, with an answer that tells no steps.
    pub fn handed_back(answer: Answer, header: Header, worker: Worker) -> Outcome
        ensures { result ≡ handed_back answer header worker }
    {
        Outcome {
            called: Called::answered(answer, header),
            worker,
        }
    }
}
