// The register by value: starting an operation, and one step of one worker.
// Nodes and buckets go as two slices: C lends them so, and `call_same`, `prepare_is_first` and `serve_is_next` speak of the two as the calls' own arguments.
#![tactic(auto)]

ghost use Rattle.std.specs.Prelude.{◌≡◌};
ghost use Rattle.moves.specs.Moves.{decided};
ghost use Rattle.words.specs.Words.{tables, left};
ghost use Rattle.register.specs.Calls.{started_by, stepped_by, asked_of};
ghost use Rattle.register.specs.Parts.{call_verdict, ask_verdict, open_verdict, busy_verdict, idle_verdict};
ghost use Rattle.register.specs.Step.{refused_with, Small, word_for, split_for, seen_by};

use acts::{Move, Outcome};
use header::Header;
use moves::Seen;
use names::{Answer, kind, place};
use record::Worker;
use words::{LINK, Lengths, SPLIT_KEY};

// What a worker is called for.
#[derive(Clone, Copy)]
pub enum Call {
    // An operation of this kind on this key starts.
    Start { kind: u32, key: u32 },
    // One step of the operation that is under way.
    Step,
}

// One worker's turn: its number, the register's header and its record, handed in.
#[derive(Clone, Copy)]
pub struct Turn {
    pub number: u32,
    pub header: Header,
    pub worker: Worker,
}

// A turn that has passed a call's checks, so that its header's numbers are small enough to add: what a step starts from.
#[derive(Clone, Copy)]
struct Checked {
    turn: Turn,
    ghost small: { Small turn.header },
}

// 17, 14: a start of an unknown kind, or on a key above the limit.
#[tactic(auto, unfolding(choice::specs::Choice::pick, crate::specs::Parts::ask_verdict))]
fn asked(call: Call) -> Result<(), Answer>
    ensures { result ≡ ask_verdict call }
{
    if let Call::Start { kind, key } = call {
        if !matches!(kind, kind::INSERT..=kind::DELETE) {
            return Err(Answer::NoKind);
        }
        if names::KEY_LIMIT < key {
            return Err(Answer::KeyAbove);
        }
    }
    Ok(())
}

impl Turn {
    // A call that is refused hands header and record back as they came.
    fn refused(self, answer: Answer) -> Outcome
        ensures { result ≡ refused_with answer self }
    {
        Outcome::handed_back(answer, self.header, self.worker)
    }

    // 12, 11, 13: what a start and a step check first.
    #[tactic(auto, unfolding(choice::specs::Choice::pick, crate::specs::Parts::call_verdict))]
    fn call_verdict(self, lengths: Lengths) -> Result<(), Answer>
        ensures { result ≡ call_verdict self lengths }
    {
        if self.header.damaged() {
            return Err(Answer::Damaged);
        }
        if self.header.short(lengths) {
            return Err(Answer::Short);
        }
        if self.header.w <= self.number {
            return Err(Answer::NoWorker);
        }
        Ok(())
    }

    // Then a start's 17 and 14, and 12: all that is checked before the record is asked whether it is idle.
    #[tactic(auto, unfolding(choice::specs::Choice::pick, crate::specs::Parts::open_verdict))]
    fn verdict(self, call: Call, lengths: Lengths) -> Result<(), Answer>
        ensures { result ≡ open_verdict self call lengths }
    {
        self.call_verdict(lengths)?;
        asked(call)?;
        if faults::damaged(self.worker, self.header, self.number) {
            return Err(Answer::Damaged);
        }
        Ok(())
    }

    // 15, or the worker is busy, with a record that begins. Starting is private: it looks at the tables' lengths alone.
    #[tactic(auto, unfolding(choice::specs::Choice::pick, crate::specs::Parts::busy_verdict))]
    fn begin(self, kind: u32, key: u32) -> Outcome
        ensures { result ≡ started_by self kind key (busy_verdict self) }
    {
        if self.worker.place != place::IDLE {
            return self.refused(Answer::IsBusy);
        }
        let header = self.header.busy_with(self.number);
        Outcome::handed_back(Answer::Going, header, Worker::begun(kind, key))
    }

    // One call of a worker: refused, or what it is asked for.
    pub fn call(self, call: Call, nodes: &mut [u32], buckets: &mut [u32]) -> Outcome
        ensures { left result (tables nodes.new buckets.new) ≡ asked_of self call (tables nodes.old buckets.old) }
    {
        if let Err(answer) = self.verdict(call, Lengths::of(nodes, buckets)) {
            return self.refused(answer);
        }
        match call {
            Call::Start { kind, key } => self.begin(kind, key),
            Call::Step => Checked { turn: self }.act(nodes, buckets),
        }
    }
}

impl Checked {
    // The one shared word that the step reads at its place, or the node that it found free. A match, since the place is a number that a lent record holds.
    #[tactic(auto, unfolding(choice::specs::Choice::pick, crate::specs::Step::word_for, crate::specs::Step::word_at, crate::specs::Step::word_given, crate::specs::Step::asked_at))]
    fn word_for(self, nodes: &[u32], buckets: &[u32]) -> u32
        ensures { result ≡ word_for self.turn (tables nodes.now buckets.now) }
    {
        let h = self.turn.header;
        let x = self.turn.worker;
        let dummies = h.m + h.w;
        match x.place {
            place::I1 => scans::free_node(nodes, dummies + 1, dummies + h.k),
            place::TB => words::bucket(buckets, x.wanted),
            place::B2 => words::bucket(buckets, tree::parent(x.making)),
            place::B4 => scans::free_node(nodes, 1, dummies),
            place::F1 => words::word(nodes, x.start, LINK),
            place::F2 | place::D4A => words::word(nodes, x.cur, LINK),
            place::F3 | place::F4 | place::L2 | place::D4B => words::word(nodes, x.prev, LINK),
            _ => 0,
        }
    }

    // At F3 the split key of cur is read in the same step. 0, and no Option, where nothing is read, as `seen_by` has it.
    #[tactic(auto, unfolding(choice::specs::Choice::pick, crate::specs::Step::split_for))]
    fn split_for(self, nodes: &[u32]) -> u32
        ensures { result ≡ split_for self.turn nodes.now }
    {
        if self.turn.worker.place == place::F3 {
            words::word(nodes, self.turn.worker.cur, SPLIT_KEY)
        } else {
            0
        }
    }

    // What the step sees.
    fn look(self, nodes: &[u32], buckets: &[u32]) -> Seen
        ensures { result ≡ seen_by self.turn (tables nodes.now buckets.now) }
    {
        Seen {
            header: self.turn.header,
            worker: self.turn.worker,
            word: self.word_for(nodes, buckets),
            split: self.split_for(nodes),
        }
    }

    // What the step decides: the shared word is read, and the place's own lines are followed.
    fn decision(self, nodes: &[u32], buckets: &[u32]) -> Move
        ensures { result ≡ decided (seen_by self.turn (tables nodes.now buckets.now)) }
    {
        self.look(nodes, buckets).decide()
    }

    // 16, or one shared access with the private work that follows: the decision is made, and carried out.
    #[tactic(auto, unfolding(choice::specs::Choice::pick, crate::specs::Parts::idle_verdict))]
    fn act(self, nodes: &mut [u32], buckets: &mut [u32]) -> Outcome
        ensures { left result (tables nodes.new buckets.new) ≡ stepped_by self.turn (tables nodes.old buckets.old) (idle_verdict self.turn) }
    {
        if self.turn.worker.place == place::IDLE {
            return self.turn.refused(Answer::IsIdle);
        }
        let decision = self.decision(nodes, buckets);
        let h = self.turn.header;
        writes::carry(
            h.m + h.w + h.k,
            self.turn.number,
            h,
            self.turn.worker,
            decision,
            nodes,
            buckets,
        )
    }
}
