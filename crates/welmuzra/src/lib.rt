// The register as a library that C links, over plain words: any word is a word, where a caller's bool or struct could be none.
// Nodes and buckets are two slices, as C lends them.
#![tactic(auto)]

ghost use Rattle.std.specs.Prelude.{◌≡◌, false, ◌+◌, ◌*◌, ◌≤◌, length};
ghost use Rattle.names.specs.Names.{refuses};
ghost use Rattle.words.specs.Words.{tables, left};
ghost use Rattle.register.specs.declared.Call.TheVariants.{Start, Step};
ghost use Rattle.welmuzra.specs.Words.{RECORD, header_of, header_words, place_read, record_of, record_words, words_at, record_put};
ghost use Rattle.welmuzra.specs.Calls.{replied, lacks_records, says, reply_of, kept, call_words, limits, readied, prepare_words};

use acts::{Called, Outcome};
use header::Header;
use names::{Answer, place};
use prepare::Limits;
use record::Worker;
use register::{Call, Turn};
use words::Lengths;

// The words of the header, and of a worker's record.
const HEADER: usize = 7;

const RECORD: usize = 15;

// What a call answers: the scope paper's number, and at an ended answer the operation's steps.
#[repr(C)]
#[derive(Clone, Copy)]
pub struct Reply {
    pub answer: u32,
    pub steps: u32,
}

impl From<Answer> for Reply {
    ghost from_gives = { λ answer reply. reply ≡ says answer 0 };

    // What a refused call answers.
    fn from(answer: Answer) -> Reply {
        Reply {
            answer: answer.number(),
            steps: 0,
        }
    }
}

impl From<Called> for Reply {
    ghost from_gives = { λ called reply. reply ≡ reply_of called };

    // What a call answers beside its words.
    fn from(called: Called) -> Reply {
        Reply {
            answer: called.answer.number(),
            steps: called.steps,
        }
    }
}

// The header that seven words are. A function, here and for the three below: the order of the words is this library's, and a `From` could only stand where the struct does.
fn header_of(words: [u32; HEADER]) -> Header
    ensures { result ≡ header_of words }
{
    let [m, k, w, l, size, count, busy] = words;
    Header {
        m,
        k,
        w,
        l,
        size,
        count,
        busy,
    }
}

// The seven words of a header.
fn header_words(h: Header) -> [u32; HEADER]
    ensures { result ≡ header_words h }
{
    [h.m, h.k, h.w, h.l, h.size, h.count, h.busy]
}

// A mark that is neither 0 nor 1 makes no record: its place is an unknown one.
#[tactic(auto, unfolding(choice::specs::Choice::pick, crate::specs::Words::place_read))]
fn place_of(mark: u32, place: u32) -> u32
    ensures { result ≡ place_read mark place }
{
    if 1 < mark {
        return place::D6 + 1;
    }
    place
}

// Record w of a table that has it. By index, since of a slice a pattern would need an arm that never comes.
fn record_at(records: &[u32], w: u32) -> Worker
    requires { w * RECORD + RECORD ≤ length records.now }
    ensures { result ≡ record_of (words_at records.now w) }
{
    let at = (w as usize) * RECORD;
    let words = &records[at..at + RECORD];
    Worker {
        place: place_of(words[11], words[0]),
        errand: words[1],
        kind: words[2],
        key: words[3],
        wanted: words[4],
        making: words[5],
        size: words[6],
        start: words[7],
        prev: words[8],
        cur: words[9],
        next: words[10],
        marked: words[11] == 1,
        held: words[12],
        dummy: words[13],
        steps: words[14],
    }
}

// The fifteen words of a record.
#[tactic(auto, unfolding(choice::specs::Choice::pick))]
fn record_words(x: Worker) -> [u32; RECORD]
    ensures { result ≡ record_words x }
{
    [
        x.place,
        x.errand,
        x.kind,
        x.key,
        x.wanted,
        x.making,
        x.size,
        x.start,
        x.prev,
        x.cur,
        x.next,
        x.marked as u32,
        x.held,
        x.dummy,
        x.steps,
    ]
}

// Record w goes into its place; past the table there is nothing to store.
#[tactic(auto, unfolding(choice::specs::Choice::pick, crate::specs::Words::record_put))]
fn store_record(records: &mut [u32], w: u32, x: Worker)
    ensures { records.new ≡ record_put records.old w (record_words x) }
{
    let at = (w as usize) * RECORD;
    // A test, and not `get_mut`, after which a proof knows no word of the table.
    if at + RECORD <= records.len() {
        // Word by word: a copy of the whole array goes over the stack, 36 instructions more at every step.
        for (i, word) in record_words(x).iter().enumerate() {
            records[at + i] = *word;
        }
    }
}

// So many words are fewer than W records.
fn lacks_records(len: usize, w: u32) -> bool
    ensures { result ≡ lacks_records len w }
{
    len < (w as usize) * RECORD
}

// What a call hands back goes into the words, unless it is refused. Each way ends by itself: one end for both is nine instructions more a step.
#[tactic(auto, unfolding(choice::specs::Choice::pick, crate::specs::Calls::kept))]
fn keep(header: &mut [u32; HEADER], records: &mut [u32], w: u32, out: Outcome) -> Reply
    ensures { replied result header.new records.new ≡ kept header.old records.old w out }
{
    if out.called.answer.refuses() {
        return Reply::from(out.called);
    }
    *header = header_words(out.called.header);
    store_record(records, w, out.worker);
    Reply::from(out.called)
}

// Worker w is called: the register's own call on the record that its words are.
fn serve(
    header: &mut [u32; HEADER],
    records: &mut [u32],
    nodes: &mut [u32],
    buckets: &mut [u32],
    w: u32,
    call: Call,
) -> Reply
    ensures { left (replied result header.new records.new) (tables nodes.new buckets.new) ≡ call_words header.old records.old w call (tables nodes.old buckets.old) }
{
    let h = header_of(*header);
    let lengths = Lengths::of(nodes, buckets);
    if lacks_records(records.len(), h.w) {
        return Reply::from(h.missing(true, lengths));
    }
    if h.w <= w {
        return Reply::from(h.missing(false, lengths));
    }
    let worker = record_at(records, w);
    let turn = Turn {
        number: w,
        header: h,
        worker,
    };
    let out = turn.call(call, nodes, buckets);
    keep(header, records, w, out)
}

// One step of worker w.
#[unsafe(no_mangle)]
pub extern "C" fn welmuzra_step(
    header: &mut [u32; HEADER],
    records: &mut [u32],
    nodes: &mut [u32],
    buckets: &mut [u32],
    w: u32,
) -> Reply
    ensures { left (replied result header.new records.new) (tables nodes.new buckets.new) ≡ call_words header.old records.old w Step (tables nodes.old buckets.old) }
{
    serve(header, records, nodes, buckets, w, Call::Step)
}

// Worker w starts an operation of this kind on this key; nodes and buckets stay as they are.
#[unsafe(no_mangle)]
pub extern "C" fn welmuzra_start(
    header: &mut [u32; HEADER],
    records: &mut [u32],
    nodes: &mut [u32],
    buckets: &mut [u32],
    w: u32,
    kind: u32,
    key: u32,
) -> Reply
    ensures { left (replied result header.new records.new) (tables nodes.new buckets.new) ≡ call_words header.old records.old w (Start kind key) (tables nodes.old buckets.old) }
{
    serve(
        header,
        records,
        nodes,
        buckets,
        w,
        Call::Start { kind, key },
    )
}

// What preparing hands back goes into the words, unless it is refused.
#[tactic(auto, unfolding(choice::specs::Choice::pick, crate::specs::Calls::readied))]
fn ready(header: &mut [u32; HEADER], records: &mut [u32], w: u32, called: Called) -> Reply
    requires { refuses called.answer ≡ false → w ≤ 16 }
    ensures { replied result header.new records.new ≡ readied w header.old records.old called }
{
    if !called.answer.refuses() {
        *header = header_words(called.header);
        scans::clear(records, w * (RECORD as u32));
    }
    Reply::from(called)
}

// A register of M buckets, K key nodes, W workers and load L.
#[tactic(auto, unfolding(choice::specs::Choice::pick, crate::specs::Calls::prepare_words))]
#[unsafe(no_mangle)]
pub extern "C" fn welmuzra_prepare(
    header: &mut [u32; HEADER],
    records: &mut [u32],
    nodes: &mut [u32],
    buckets: &mut [u32],
    m: u32,
    k: u32,
    w: u32,
    l: u32,
) -> Reply
    ensures { left (replied result header.new records.new) (tables nodes.new buckets.new) ≡ prepare_words (limits m k w l) header.old records.old (tables nodes.old buckets.old) }
{
    let limits = Limits { m, k, w, l };
    if lacks_records(records.len(), w) {
        return Reply::from(limits.too_few());
    }
    let called = limits.prepare(header_of(*header), nodes, buckets);
    ready(header, records, w, called)
}
