// The table of records by value, lent for a call and taken back: whoever holds a register needs no slice of worker structs of its own.
// Nodes and buckets go as two slices: C lends them so, and `call_same`, `prepare_is_first` and `serve_is_next` speak of the two as the calls' own arguments.
#![tactic(auto)]

ghost use Rattle.std.specs.Prelude.{◌≡◌};
ghost use Rattle.words.specs.Words.{tables, left};
ghost use Rattle.crew.specs.Crew.{crew, serve_at, prepare_at};

use acts::Called;
use header::Header;
use prepare::Limits;
use record::Worker;
use register::Call;

// The most workers that a register has.
pub const MOST_WORKERS: usize = 16;

// The table by value, with what the call hands back. Sixteen records in an array, since nothing is allocated.
// The header is handed in and handed back by value beside the records, the form that the scope paper names.
#[derive(Clone, Copy)]
pub struct Bank {
    pub called: Called,
    pub workers: [Worker; MOST_WORKERS],
}

// The table by value, lent for a preparing and taken back.
pub fn prepare(
    workers: [Worker; MOST_WORKERS],
    limits: Limits,
    header: Header,
    nodes: &mut [u32],
    buckets: &mut [u32],
) -> Bank
    ensures { left (crew result.called result.workers) (tables nodes.new buckets.new) ≡ prepare_at limits header workers (tables nodes.old buckets.old) }
{
    let mut prepared = workers;
    let called = crew::prepare(&mut prepared, limits, header, nodes, buckets);
    Bank {
        called,
        workers: prepared,
    }
}

// The table by value, lent for a call and taken back.
pub fn serve(
    workers: [Worker; MOST_WORKERS],
    w: u32,
    header: Header,
    call: Call,
    most: u32,
    nodes: &mut [u32],
    buckets: &mut [u32],
) -> Bank
    ensures { left (crew result.called result.workers) (tables nodes.new buckets.new) ≡ serve_at header workers w call most (tables nodes.old buckets.old) }
{
    let mut served = workers;
    let called = crew::serve(&mut served, w, header, call, most, nodes, buckets);
    Bank {
        called,
        workers: served,
    }
}
