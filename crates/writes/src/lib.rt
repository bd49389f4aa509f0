// A decision carried out: what a step's write leaves in the lent tables and in the header, and at an ended answer the operation closed.
// Nodes and buckets go as two slices: C lends them so, and `call_same`, `prepare_is_first` and `serve_is_next` speak of the two as the calls' own arguments.
// Number, header and record come apart: the struct of all three, register's `Turn`, stands where its methods do, above this crate.
#![tactic(auto)]

ghost use Rattle.std.specs.Prelude.{◌≡◌};
ghost use Rattle.words.specs.Words.{tables, left, LINK, put, link_to};
ghost use Rattle.writes.specs.Writes.{taken, tables_after, header_after};
ghost use Rattle.writes.specs.Carry.{onward, closed_by, ending, carried_by};

use acts::{Called, Effect, Move, Outcome};
use header::Header;
use names::Answer;
use record::Worker;
use words::Link;

// Node n's link is to the next node, marked or not.
fn aim(nodes: &mut [u32], n: u32, next: u32, marked: bool)
    ensures { nodes.new ≡ put nodes.old n LINK (link_to next marked) }
{
    let link = u32::from(Link { next, marked });
    words::put(nodes, n, words::LINK, link);
}

// Node n is taken, with its split key.
fn take(nodes: &mut [u32], n: u32, split: u32)
    ensures { nodes.new ≡ taken n split nodes.old }
{
    words::put(nodes, n, words::SPLIT_KEY, split);
    words::put(nodes, n, words::STANDING, words::TAKEN);
}

// The write of a step, in the tables.
fn write(effect: Effect, nodes: &mut [u32], buckets: &mut [u32])
    ensures { tables nodes.new buckets.new ≡ tables_after effect (tables nodes.old buckets.old) }
{
    match effect {
        Effect::TakeKey { node, split } | Effect::TakeDummy { node, split } => {
            take(nodes, node, split);
        }
        Effect::Free { node } => words::put(nodes, node, words::STANDING, words::FREE),
        Effect::Aim { node, next } => aim(nodes, node, next, false),
        Effect::Place { node, next, prev } => {
            aim(nodes, node, next, false);
            aim(nodes, prev, node, false);
        }
        Effect::Mark { node, next } => aim(nodes, node, next, true),
        Effect::Unlink {
            prev,
            next,
            node,
            busy,
        } => {
            aim(nodes, prev, next, false);
            words::put(nodes, node, words::STANDING, busy);
        }
        Effect::Store { bucket, node } => words::store(buckets, bucket, node),
        Effect::Nothing | Effect::Count { .. } | Effect::Size { .. } => {}
    }
}

// The write of a step, in the header.
fn written(effect: Effect, header: Header) -> Header
    ensures { result ≡ header_after effect header }
{
    match effect {
        Effect::Count { value } => header.counting(value),
        Effect::Size { value } => header.resized(value),
        _ => header,
    }
}

// The operation goes on: the step is counted in the record.
fn onward(worker: Worker, effect: Effect, header: Header) -> Outcome
    ensures { result ≡ onward worker effect header }
{
    Outcome::handed_back(Answer::Going, written(effect, header), worker.ticked())
}

// At an ended answer the nodes still held are free, and the worker's bit leaves each standing that is a set.
#[tactic(auto, unfolding(crate::specs::Carry::closed_by))]
fn close(last: u32, number: u32, worker: Worker, nodes: &mut [u32])
    ensures { nodes.new ≡ closed_by last number worker nodes.old }
{
    let held = worker.holds();
    words::put(nodes, held.key, words::STANDING, words::FREE);
    words::put(nodes, held.dummy, words::STANDING, words::FREE);
    scans::sweep(nodes, last, number);
}

// The record is idle, the busy bit is cleared, and the ending step is counted in.
fn ending(number: u32, header: Header, worker: Worker, answer: Answer, effect: Effect) -> Outcome
    ensures { result ≡ ending number header worker answer effect }
{
    let header = written(effect, header).busy_without(number);
    let last = worker.ticked();
    let called = Called {
        answer,
        steps: last.steps,
        header,
    };
    let worker = Worker::idle();
    Outcome { called, worker }
}

// A decision is carried out, in a register whose last node is `last`; damaged words change nothing.
pub fn carry(
    last: u32,
    number: u32,
    header: Header,
    worker: Worker,
    decision: Move,
    nodes: &mut [u32],
    buckets: &mut [u32],
) -> Outcome
    ensures { left result (tables nodes.new buckets.new) ≡ carried_by last number header worker decision (tables nodes.old buckets.old) }
{
    match decision {
        Move::Damaged => Outcome::handed_back(Answer::Damaged, header, worker),
        // Most steps write nothing, so these are not asked what they write.
        Move::Going {
            worker: next,
            effect: Effect::Nothing,
        } => onward(next, Effect::Nothing, header),
        Move::Going {
            worker: next,
            effect,
        } => {
            write(effect, nodes, buckets);
            onward(next, effect, header)
        }
        Move::Ended { answer, effect } => {
            write(effect, nodes, buckets);
            close(last, number, worker, nodes);
            ending(number, header, worker, answer, effect)
        }
    }
}
