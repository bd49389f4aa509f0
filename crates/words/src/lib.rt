// The words of the lent tables, by node and by bucket. Every function is total: past a table's end a word reads 0 and is not written, and so is node 0, which means nothing.
#![tactic(auto)]

ghost use Rattle.std.specs.Prelude.{◌≡◌, set, slice_index};
ghost use Rattle.words.specs.Words.{tables, lengths, word, put, bucket, store, link_of, link_to};

// The three words of a node. Numbers and no enum, since `word` and `put` say what they do for any number.
pub const SPLIT_KEY: u32 = 0;

pub const LINK: u32 = 1;

pub const STANDING: u32 = 2;

// The standing of a free node. Standings are numbers, since a lent word can be any.
pub const FREE: u32 = 0;

// The standing that is written for a node that is taken.
pub const TAKEN: u32 = 2147483648;

// The largest standing that is a set of workers waited for.
pub const LARGEST_SET: u32 = 65535;

// How many words each lent table has.
#[derive(Clone, Copy)]
pub struct Lengths {
    pub nodes: usize,
    pub buckets: usize,
}

impl Lengths {
    // Those of the two tables that are lent.
    pub fn of(nodes: &[u32], buckets: &[u32]) -> Lengths
        ensures { result ≡ lengths (tables nodes.now buckets.now) }
    {
        Lengths {
            nodes: nodes.len(),
            buckets: buckets.len(),
        }
    }
}

// A link word taken apart: the next node, and the mark of the node that has the link.
#[derive(Clone, Copy, PartialEq, Eq)]
pub struct Link {
    pub next: u32,
    pub marked: bool,
}

impl From<u32> for Link {
    ghost from_gives = { λ word link. link ≡ link_of word };

    fn from(word: u32) -> Link {
        Link {
            next: word / 2,
            marked: word % 2 == 1,
        }
    }
}

// Twice the next node's number, and the mark. What passes 32 bits is cut.
impl From<Link> for u32 {
    ghost from_gives = { λ link word. word ≡ link_to link.next link.marked };

    #[tactic(auto, unfolding(crate::specs::Words::link_to, crate::specs::Words::link_word, choice::specs::Choice::pick))]
    fn from(link: Link) -> u32 {
        link.next
            .wrapping_mul(2)
            .wrapping_add(u32::from(link.marked))
    }
}

// The word at that place of a table; 0 past its end. The byte of a body in `numbers` is read by the same line: a crate for both would be no plainer.
fn read(table: &[u32], at: usize) -> u32
    ensures { result ≡ slice_index table.now at }
{
    table.get(at).copied().unwrap_or(0)
}

// Stores v at that place of a table; by a test, since a slice's `get_mut` does not say what the slice ends as.
fn write(table: &mut [u32], at: usize, v: u32)
    ensures { table.new ≡ set table.old at v }
{
    if at < table.len() {
        table[at] = v;
    }
}

// Word `which` of node n: its split key, its link or its standing.
#[tactic(auto, using(crate::proofs::Laws::nothing, crate::proofs::Laws::word_at))]
pub fn word(nodes: &[u32], n: u32, which: u32) -> u32
    ensures { result ≡ word nodes.now n which }
{
    if n == 0 {
        return 0;
    }
    read(nodes, 3 * (n as usize - 1) + which as usize)
}

// Stores v in word `which` of node n.
#[tactic(auto, using(crate::proofs::Laws::put_nothing, crate::proofs::Laws::put_at))]
pub fn put(nodes: &mut [u32], n: u32, which: u32, v: u32)
    ensures { nodes.new ≡ put nodes.old n which v }
{
    if n == 0 {
        return;
    }
    write(nodes, 3 * (n as usize - 1) + which as usize, v);
}

// The word of bucket b.
#[tactic(auto, unfolding(crate::specs::Words::bucket))]
pub fn bucket(buckets: &[u32], b: u32) -> u32
    ensures { result ≡ bucket buckets.now b }
{
    read(buckets, b as usize)
}

// Stores v in the word of bucket b.
#[tactic(auto, unfolding(crate::specs::Words::store))]
pub fn store(buckets: &mut [u32], b: u32, v: u32)
    ensures { buckets.new ≡ store buckets.old b v }
{
    write(buckets, b as usize, v);
}
