// The run of a schedule: record after record moves the register, and the lines that it prints are laid in a lent buffer.
// Nodes and buckets go as two slices: C lends them so, and `call_same`, `prepare_is_first` and `serve_is_next` speak of the two as the calls' own arguments.
#![tactic(auto)]

ghost use Rattle.std.specs.Prelude.{◌≡◌};
ghost use Rattle.words.specs.Words.{tables, left};
ghost use Rattle.crew.specs.Crew.{crew};
ghost use Rattle.script.specs.Script.{entry_at, body_at};
ghost use Rattle.text.specs.Text.{Laid, written};
ghost use Rattle.lines.specs.Lines.{refused_line};
ghost use Rattle.replay.specs.Play.{buckets_of, limits_of, opened, number_in, call_of, played, operation_of, call_line};
ghost use Rattle.replay.specs.Replay.{refusal_number, refusal_of, first_record, later_record, stop_line, last_line, first_line, beginning, printed};

use bank::{Bank, MOST_WORKERS};
use header::Header;
use lines::Line;
use names::Answer;
use prepare::Limits;
use record::Worker;
use register::Call;
use script::{Fault, Kind, Record};
use text::Page;

// The most nodes that a register has: no chain is longer.
const MOST_NODES: u32 = 5136;

// The words that are lent to it: three to a node, and the most buckets.
const NODE_WORDS: usize = 3 * MOST_NODES as usize;

const MOST_BUCKETS: usize = 1024;

// The longest schedule.
const LONGEST: usize = 65536;

// The bytes that are read, one more than the longest schedule has, so that a longer one is told.
pub const READ: usize = LONGEST + 1;

// The bytes that hold what any schedule prints: nine for each byte of the longest schedule.
pub const PRINTED: usize = 9 * LONGEST;

// Whose operation a record is about: the worker, and the kind and key that its record has. A line names them one by one, as `line_text` does.
#[derive(Clone, Copy)]
struct Operation {
    worker: u32,
    kind: u32,
    key: u32,
}

// What a schedule itself is refused with, each with its number.
#[derive(Clone, Copy)]
enum Refusal {
    UnknownKind = 30,
    CutShort = 31,
    // The first record isn't 00, or a later one is.
    Misplaced = 32,
    TooLong = 33,
}

impl Refusal {
    fn number(self) -> u32
        ensures { result ≡ refusal_number self }
    {
        self as u32
    }
}

impl From<Fault> for Refusal {
    ghost from_gives = { λ fault refusal. refusal ≡ refusal_of fault };

    fn from(fault: Fault) -> Refusal {
        match fault {
            Fault::Unknown => Refusal::UnknownKind,
            Fault::Cut => Refusal::CutShort,
        }
    }
}

// M; an exponent outside 1 to 10 stands for none. That is 0 and no Option: preparing itself refuses 0 with 10, so one place says it.
#[tactic(auto, unfolding(crate::specs::Play::buckets_of, choice::specs::Choice::pick))]
fn buckets_of(exponent: u32) -> u32
    ensures { result ≡ buckets_of exponent }
{
    match exponent {
        1..=10 => 2u32.pow(exponent),
        _ => 0,
    }
}

// The body of 00: exponent of M, K, W, L.
fn limits_of(body: &[u8]) -> Limits
    ensures { result ≡ limits_of body.now }
{
    Limits {
        m: buckets_of(numbers::byte_at(body, 0)),
        k: numbers::two_at(body, 1),
        w: numbers::byte_at(body, 3),
        l: numbers::byte_at(body, 4),
    }
}

// 00: the register that its body asks for, over lent words.
#[tactic(auto, unfolding(crate::specs::Play::opened))]
fn ready(body: &[u8], nodes: &mut [u32], buckets: &mut [u32]) -> Bank
    ensures { left (crew result.called result.workers) (tables nodes.new buckets.new) ≡ opened body.now (tables nodes.old buckets.old) }
{
    let limits = limits_of(body);
    let idle = Worker::idle();
    let blank = Header::fresh(0, 0, 0, 0);
    bank::prepare([idle; MOST_WORKERS], limits, blank, nodes, buckets)
}

// The number in a body: the key of a start, the one step of 04, the n steps of 05.
fn number_in(kind: Kind, body: &[u8]) -> u32
    ensures { result ≡ number_in kind body.now }
{
    match kind {
        Kind::Step => 1,
        Kind::Steps => numbers::byte_at(body, 1),
        _ => numbers::four_at(body, 1),
    }
}

// The call of a record that isn't 00: a start, or steps. The byte of a start is the number of its operation.
fn call_of(kind: Kind, number: u32) -> Call
    ensures { result ≡ call_of kind number }
{
    match kind {
        Kind::Step | Kind::Steps => Call::Step,
        _ => Call::Start {
            kind: kind as u32,
            key: number,
        },
    }
}

// What the call leaves; steps are so many at most.
#[tactic(auto, unfolding(crate::specs::Play::played))]
fn play(bank: Bank, kind: Kind, w: u32, number: u32, nodes: &mut [u32], buckets: &mut [u32]) -> Bank
    ensures { left (crew result.called result.workers) (tables nodes.new buckets.new) ≡ played kind w number bank.called.header bank.workers (tables nodes.old buckets.old) }
{
    let call = call_of(kind, number);
    bank::serve(
        bank.workers,
        w,
        bank.called.header,
        call,
        number,
        nodes,
        buckets,
    )
}

// The operation of worker w; past the table it has none.
fn operation_of(workers: [Worker; MOST_WORKERS], w: u32) -> Operation
    ensures { result ≡ operation_of w workers }
{
    let worker = workers.get(w as usize).copied().unwrap_or(Worker::idle());
    Operation {
        worker: w,
        kind: worker.kind,
        key: worker.key,
    }
}

// The line of a refusal.
fn put_refused(page: &mut Page, number: u32, offset: usize)
    ensures { page.new ≡ written page.old (refused_line number offset) }
{
    lines::put_line(page, Line::Refused { number, offset });
}

// The line of a call: a refusal, an ended operation, or nothing.
#[tactic(auto, unfolding(crate::specs::Play::call_line, lines::specs::Lines::ended_line, choice::specs::Choice::pick))]
fn put_call(page: &mut Page, operation: Operation, answer: Answer, steps: u32, offset: usize)
    ensures { page.new ≡ written page.old (call_line operation answer steps offset) }
{
    if answer.refuses() {
        return put_refused(page, answer.number(), offset);
    }
    let ended = Line::Ended {
        worker: operation.worker,
        kind: operation.kind,
        key: operation.key,
        answer,
        steps,
    };
    lines::put_line(page, ended);
}

// The first record has to be 00: where the next one starts. By slice and offset, here and below, as `script::record_at` promises.
fn first_at(schedule: &[u8]) -> Result<usize, Refusal>
    ensures { result ≡ first_record (entry_at schedule.now 0) }
{
    match script::record_at(schedule, 0)? {
        Some(record) if record.kind == Kind::Prepare => Ok(record.next),
        _ => Err(Refusal::Misplaced),
    }
}

// A later record must not be 00: the record at an offset, None at the input's end.
fn later_at(schedule: &[u8], offset: usize) -> Result<Option<Record>, Refusal>
    ensures { result ≡ later_record (entry_at schedule.now offset) }
{
    match script::record_at(schedule, offset)? {
        Some(record) if record.kind == Kind::Prepare => Err(Refusal::Misplaced),
        record => Ok(record),
    }
}

// What stops the run at an offset; the input's end prints nothing.
#[tactic(auto, unfolding(crate::specs::Replay::stop_line))]
fn put_stop(page: &mut Page, schedule: &[u8], offset: usize)
    ensures { page.new ≡ written page.old (stop_line schedule.now offset) }
{
    match later_at(schedule, offset) {
        // The empty text is laid, so that an end past the buffer comes back to the buffer's end.
        Ok(None) => page.put(b""),
        // No record is left here; one that stood here would be out of place.
        Ok(Some(_)) => put_refused(page, Refusal::Misplaced.number(), offset),
        Err(refusal) => put_refused(page, refusal.number(), offset),
    }
}

// The registered keys, the count and the size.
fn put_last(page: &mut Page, header: Header, nodes: &[u32])
    ensures { page.new ≡ written page.old (last_line header nodes.now) }
{
    let keys = chain::keys_from(nodes, MOST_NODES, 1);
    let end = Line::End {
        keys,
        count: header.count,
        size: header.size,
    };
    lines::put_line(page, end);
}

// The line of a register that was prepared.
fn put_first(page: &mut Page, header: Header)
    ensures { page.new ≡ written page.old (first_line header) }
{
    let register = Line::Register {
        m: header.m,
        k: header.k,
        w: header.w,
        l: header.l,
    };
    lines::put_line(page, register);
}

// The first record, and the records after it, up to the input's end or one that stops the run. A refused 00 stops it too.
#[tactic(auto, unfolding(crate::specs::Replay::beginning, choice::specs::Choice::pick))]
fn begin(schedule: &[u8], next: usize, nodes: &mut [u32], buckets: &mut [u32], page: &mut Page)
    ensures { page.new ≡ written page.old (beginning schedule.now next (opened (body_at schedule.now 0) (tables nodes.old buckets.old))) }
{
    let mut bank = ready(script::body_of(schedule, 0), nodes, buckets);
    let answer = bank.called.answer;
    if !answer.goes_on() {
        return put_refused(page, answer.number(), 0);
    }
    put_first(page, bank.called.header);
    let mut offset = next;
    while let Ok(Some(record)) = later_at(schedule, offset) {
        let body = script::body_of(schedule, offset);
        let w = numbers::byte_at(body, 0);
        let number = number_in(record.kind, body);
        let operation = operation_of(bank.workers, w);
        bank = play(bank, record.kind, w, number, nodes, buckets);
        let called = bank.called;
        put_call(page, operation, called.answer, called.steps, offset);
        offset = record.next;
    }
    put_stop(page, schedule, offset);
    put_last(page, bank.called.header, nodes);
}

// All that a schedule prints.
#[tactic(auto, unfolding(crate::specs::Replay::printed, choice::specs::Choice::pick))]
fn put_run(page: &mut Page, schedule: &[u8])
    ensures { page.new ≡ written page.old (printed schedule.now) }
{
    if LONGEST < schedule.len() {
        return put_refused(page, Refusal::TooLong.number(), LONGEST);
    }
    match first_at(schedule) {
        Ok(next) => {
            // Arrays of the most words that a register has, since nothing is allocated.
            let mut nodes = [0u32; NODE_WORDS];
            let mut buckets = [0u32; MOST_BUCKETS];
            begin(schedule, next, &mut nodes, &mut buckets, page);
        }
        Err(refusal) => put_refused(page, refusal.number(), 0),
    }
}

// Runs a schedule and lays what it prints at the start of a lent buffer; where that ends.
#[tactic(auto, unfolding(text::specs::Text::written))]
pub fn run(schedule: &[u8], out: &mut [u8]) -> usize
    ensures { Laid out.old 0 (printed schedule.now) out.new result }
{
    let mut page = Page::new(out);
    put_run(&mut page, schedule);
    page.end
}
