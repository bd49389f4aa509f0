// Preparing a register over the lent tables.
// Nodes and buckets go as two slices: C lends them so, and `call_same`, `prepare_is_first` and `serve_is_next` speak of the two as the calls' own arguments.
#![tactic(auto)]

ghost use Rattle.std.specs.Prelude.{◌≡◌};
ghost use Rattle.words.specs.Words.{tables, left};
ghost use Rattle.prepare.specs.Prepare.{fresh_header, prepare_verdict, too_few_for, prepared};

use acts::Called;
use header::Header;
use names::Answer;
use words::Lengths;

// What a register is asked to hold: M buckets, K key nodes, W workers, load L.
#[derive(Clone, Copy)]
pub struct Limits {
    pub m: u32,
    pub k: u32,
    pub w: u32,
    pub l: u32,
}

impl Limits {
    // Size 2, count 0, nobody busy.
    fn fresh_header(self) -> Header
        ensures { result ≡ fresh_header self }
    {
        Header::fresh(self.m, self.k, self.w, self.l)
    }

    // 10, then 11.
    #[tactic(auto, unfolding(crate::specs::Prepare::prepare_verdict, choice::specs::Choice::pick))]
    fn verdict(self, lengths: Lengths) -> Result<(), Answer>
        ensures { result ≡ prepare_verdict self lengths }
    {
        let h = self.fresh_header();
        if h.limit_broken() {
            return Err(Answer::Limit);
        }
        if h.short(lengths) {
            return Err(Answer::Short);
        }
        Ok(())
    }

    // 10, then 11: there are fewer records than the W that is asked for.
    #[tactic(auto, unfolding(crate::specs::Prepare::too_few_for, choice::specs::Choice::pick))]
    pub fn too_few(self) -> Answer
        ensures { result ≡ too_few_for self }
    {
        if self.fresh_header().limit_broken() {
            return Answer::Limit;
        }
        Answer::Short
    }

    // A register over the lent tables: every node free but node 1, bucket 0's dummy; nothing past the tables' own words is written.
    pub fn prepare(self, header: Header, nodes: &mut [u32], buckets: &mut [u32]) -> Called
        ensures { left result (tables nodes.new buckets.new) ≡ prepared self header (tables nodes.old buckets.old) }
    {
        if let Err(answer) = self.verdict(Lengths::of(nodes, buckets)) {
            return Called::answered(answer, header);
        }
        let h = self.fresh_header();
        scans::clear(nodes, (h.nodes() * 3) as u32);
        words::put(nodes, 1, words::STANDING, words::TAKEN);
        scans::clear(buckets, h.m);
        words::store(buckets, 0, 1);
        Called::answered(Answer::Going, h)
    }
}
