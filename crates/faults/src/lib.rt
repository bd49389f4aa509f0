// The faults of a worker's record, row by row of the scope paper's "12 is given exactly when".
// Record, header and number come apart: the struct of all three, register's `Turn`, stands where its methods do, above this crate.
// Every step asks them, so `|` and `&` join the numbers' tests, which needs no branch; `&&` stands before what costs more.
#![tactic(auto)]

ghost use Rattle.std.specs.Prelude.{◌≡◌, ltb};
ghost use Rattle.faults.specs.Faults.{unknown_name, bucket_beyond, node_beyond, bit_disagrees, kind_misfit, errand_misfit, making_astray, size_misfit, misfits, worker_damaged};

use header::Header;
use names::{errand, kind, place};
use record::Worker;

// The number x is above n.
fn above(n: u64, x: u32) -> bool
    ensures { result ≡ ltb n x }
{
    n < x as u64
}

// A busy record's kind is known too.
#[tactic(auto, unfolding(crate::specs::Faults::unknown_name))]
fn unknown_name(x: Worker) -> bool
    ensures { result ≡ unknown_name x }
{
    (place::D6 < x.place)
        | (errand::EXTRA < x.errand)
        | (kind::DELETE < x.kind)
        | ((x.kind == 0) & (x.place != place::IDLE))
}

#[tactic(auto, unfolding(crate::specs::Faults::bucket_beyond))]
fn bucket_beyond(x: Worker, h: Header) -> bool
    ensures { result ≡ bucket_beyond h x }
{
    (h.m <= x.wanted) | (h.m <= x.making)
}

#[tactic(auto, unfolding(crate::specs::Faults::node_beyond))]
fn node_beyond(x: Worker, n: u64) -> bool
    ensures { result ≡ node_beyond n x }
{
    above(n, x.start)
        | above(n, x.prev)
        | above(n, x.cur)
        | above(n, x.next)
        | above(n, x.held)
        | above(n, x.dummy)
}

// An idle worker's bit is set, or a busy one's is not.
#[tactic(auto, unfolding(crate::specs::Faults::bit_disagrees))]
fn bit_disagrees(x: Worker, h: Header, w: u32) -> bool
    ensures { result ≡ bit_disagrees h w x }
{
    sets::has(h.busy, w) == (x.place == place::IDLE)
}

#[tactic(auto, using(names::proofs::Places::insert_steps, names::proofs::Places::delete_steps), unfolding(crate::specs::Faults::kind_misfit))]
fn kind_misfit(x: Worker) -> bool
    ensures { result ≡ kind_misfit x }
{
    match x.place {
        place::I1 | place::I8..=place::I10 => x.kind != kind::INSERT,
        place::D4A..=place::D6 => x.kind != kind::DELETE,
        _ => false,
    }
}

#[tactic(auto, using(names::proofs::Places::searches_within), unfolding(crate::specs::Faults::errand_misfit))]
fn errand_misfit(x: Worker) -> bool
    ensures { result ≡ errand_misfit x }
{
    if (x.errand == errand::EXTRA) & (x.kind != kind::DELETE) {
        return matches!(x.place, place::F1..=place::L2);
    }
    x.place == place::L2
        && !((x.errand == errand::DUMMY) | ((x.errand == errand::KEY) & (x.kind == kind::INSERT)))
}

#[tactic(auto, using(names::proofs::Places::makes_at), unfolding(crate::specs::Faults::making_astray))]
fn making_astray(x: Worker) -> bool
    ensures { result ≡ making_astray x }
{
    matches!(x.place, place::B2 | place::B4 | place::B8)
        && ((x.making == 0) | !tree::on_path(x.wanted, x.making))
}

#[tactic(auto, using(names::proofs::Places::size_within), unfolding(crate::specs::Faults::size_misfit))]
fn size_misfit(x: Worker, h: Header) -> bool
    ensures { result ≡ size_misfit h x }
{
    matches!(x.place, place::I9 | place::I10)
        && (!tree::power_up_to(h.m, x.size) | ((x.place == place::I10) & (h.m <= x.size)))
}

// A record that does not fit its place: only the rows that speak of the place are looked at.
#[tactic(auto, using(crate::proofs::Laws::misfits_before, crate::proofs::Laws::misfits_within, crate::proofs::Laws::misfits_after))]
fn misfit(x: Worker, h: Header) -> bool
    ensures { result ≡ misfits h x }
{
    match x.place {
        place::IDLE..place::F1 => kind_misfit(x) | making_astray(x),
        place::F1..=place::L2 => errand_misfit(x),
        _ => kind_misfit(x) | making_astray(x) | size_misfit(x, h),
    }
}

// 12, the record's own part: a row that holds ends it, and an idle record is all zeros.
#[tactic(auto, using(crate::proofs::Laws::damaged_first, crate::proofs::Laws::damaged_idle, crate::proofs::Laws::damaged_busy, crate::proofs::Idle::other_than_idle))]
pub fn damaged(x: Worker, h: Header, w: u32) -> bool
    ensures { result ≡ worker_damaged h w x }
{
    if bit_disagrees(x, h, w) | bucket_beyond(x, h) {
        return true;
    }
    if x.place == place::IDLE {
        return x != Worker::idle();
    }
    if unknown_name(x) | (names::KEY_LIMIT < x.key) | node_beyond(x, h.nodes()) {
        return true;
    }
    misfit(x, h)
}
