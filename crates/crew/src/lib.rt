// The workers' records side by side in one lent table: a record is taken out by value, the register's own call is made on it, and it is stored back.
// Nodes and buckets go as two slices: C lends them so, and `call_same`, `prepare_is_first` and `serve_is_next` speak of the two as the calls' own arguments.
// The header is handed in and handed back by value beside the lent records, the form that the scope paper names.
#![tactic(auto)]

ghost use Rattle.std.specs.Prelude.{◌≡◌};
ghost use Rattle.words.specs.Words.{tables, left};
ghost use Rattle.acts.specs.Acts.{handed_back};
ghost use Rattle.names.specs.declared.Answer.TheVariants.{Going};
ghost use Rattle.crew.specs.Crew.{crew, one_call, serve_at, prepare_at};
ghost use Rattle.crew.specs.One.{no_call, past_of, most_of, serve_one};

use acts::{Called, Outcome};
use header::Header;
use names::Answer;
use prepare::Limits;
use record::Worker;
use register::{Call, Turn};
use words::Lengths;

// No step is no call.
fn no_call(call: Call, most: u32) -> bool
    ensures { result ≡ no_call call most }
{
    match call {
        Call::Start { .. } => false,
        Call::Step => most == 0,
    }
}

// A worker past the table, where there are `len` records.
#[tactic(auto, unfolding(choice::specs::Choice::pick, crate::specs::One::past_of))]
fn past(header: Header, call: Call, most: u32, len: usize, lengths: Lengths) -> Called
    ensures { result ≡ past_of header call most len lengths }
{
    if no_call(call, most) {
        return Called::answered(Answer::Going, header);
    }
    let few = len < header.w as usize;
    Called::answered(header.missing(few, lengths), header)
}

// One call with the record in hand; where there are fewer records than W it is 12, then 11.
#[tactic(auto, unfolding(choice::specs::Choice::pick, crate::specs::Crew::one_call))]
fn one_call(turn: Turn, few: bool, call: Call, nodes: &mut [u32], buckets: &mut [u32]) -> Outcome
    ensures { left result (tables nodes.new buckets.new) ≡ one_call turn few call (tables nodes.old buckets.old) }
{
    if few {
        let answer = turn.header.missing(true, Lengths::of(nodes, buckets));
        return Outcome::handed_back(answer, turn.header, turn.worker);
    }
    turn.call(call, nodes, buckets)
}

// Up to so many steps with the record in hand, ending after the first whose answer isn't 0.
fn steps_one(turn: Turn, few: bool, most: u32, nodes: &mut [u32], buckets: &mut [u32]) -> Outcome
    ensures { left result (tables nodes.new buckets.new) ≡ most_of turn.number few most (left (handed_back Going turn.header turn.worker) (tables nodes.old buckets.old)) }
{
    let mut out = Outcome::handed_back(Answer::Going, turn.header, turn.worker);
    for _ in 0..most {
        if !out.called.answer.goes_on() {
            break;
        }
        let next = Turn {
            number: turn.number,
            header: out.called.header,
            worker: out.worker,
        };
        out = one_call(next, few, Call::Step, nodes, buckets);
    }
    out
}

// The call with the record in hand, where there are `len` records.
fn serve_one(
    turn: Turn,
    len: usize,
    call: Call,
    most: u32,
    nodes: &mut [u32],
    buckets: &mut [u32],
) -> Outcome
    ensures { left result (tables nodes.new buckets.new) ≡ serve_one turn len call most (tables nodes.old buckets.old) }
{
    let few = len < turn.header.w as usize;
    match call {
        Call::Start { .. } => one_call(turn, few, call, nodes, buckets),
        Call::Step => steps_one(turn, few, most, nodes, buckets),
    }
}

// Worker w is called, on its record in the table; a step is made up to `most` times, ending after the first whose answer isn't 0.
// A start takes no count, but stands beside one here, as in `serve_at`: one definition says both calls.
pub fn serve(
    workers: &mut [Worker],
    w: u32,
    header: Header,
    call: Call,
    most: u32,
    nodes: &mut [u32],
    buckets: &mut [u32],
) -> Called
    ensures { left (crew result workers.new) (tables nodes.new buckets.new) ≡ serve_at header workers.old w call most (tables nodes.old buckets.old) }
{
    let len = workers.len();
    let at = w as usize;
    // Read here and stored by its index below, since a proof knows no record of the table after a `get_mut`.
    let Some(&worker) = workers.get(at) else {
        return past(header, call, most, len, Lengths::of(nodes, buckets));
    };
    let turn = Turn {
        number: w,
        header,
        worker,
    };
    let out = serve_one(turn, len, call, most, nodes, buckets);
    workers[at] = out.worker;
    out.called
}

// A register over the lent tables: its W records are idle, and those past W stay; fewer records than W is 10, then 11.
pub fn prepare(
    workers: &mut [Worker],
    limits: Limits,
    header: Header,
    nodes: &mut [u32],
    buckets: &mut [u32],
) -> Called
    ensures { left (crew result workers.new) (tables nodes.new buckets.new) ≡ prepare_at limits header workers.old (tables nodes.old buckets.old) }
{
    let count = limits.w as usize;
    if workers.len() < count {
        return Called::answered(limits.too_few(), header);
    }
    let called = limits.prepare(header, nodes, buckets);
    if called.answer.goes_on() {
        workers[..count].fill(Worker::idle());
    }
    called
}
