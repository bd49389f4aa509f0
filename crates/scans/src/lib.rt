// The loops over the lent words: a free node, the sweep of an ended operation, and the clearing of a new register.
#![tactic(auto)]

ghost use Rattle.std.specs.Prelude.{◌≡◌};
ghost use Rattle.scans.specs.Scans.{sweep, free_node, cleared};

// Worker w is waited for no more at nodes 1 to n: each standing there that is a set loses w. The empty set and a taken node stay unwritten.
#[tactic(auto, using(crate::proofs::Laws::sweeping))]
pub fn sweep(nodes: &mut [u32], n: u32, w: u32)
    ensures { nodes.new ≡ sweep w n nodes.old }
{
    // By index, since of a slice that `chunks_exact_mut` lent a proof knows the length alone.
    for i in 0..(n as usize).min(nodes.len() / 3) {
        let s = nodes[3 * i + 2];
        if (1..=words::LARGEST_SET).contains(&s) {
            nodes[3 * i + 2] = sets::without(s, w);
        }
    }
}

// The free node of those from node low to node high: the lowest; 0, which means nothing, where none is free.
// No Option: 0 is the scope paper's own word for no node, and the record that keeps the number has it too.
#[tactic(auto, using(crate::proofs::Free::looking))]
pub fn free_node(nodes: &[u32], low: u32, high: u32) -> u32
    ensures { result ≡ free_node nodes.now low high }
{
    // By the node before: a range with no `=` has one test less a node.
    for before in low.saturating_sub(1)..high {
        let n = before + 1;
        if words::word(nodes, n, words::STANDING) == words::FREE {
            return n;
        }
    }
    0
}

// The first count words become 0, as the tables have to be before the register starts.
#[tactic(auto, using(crate::proofs::Clearing::clearing))]
pub fn clear(table: &mut [u32], count: u32)
    ensures { table.new ≡ cleared count table.old }
{
    // Every second word, then those between: a loop that stores 0 in word after word with no test, as a `fill` does, becomes a call of `memset`, and the library calls nothing, not even the C library.
    let n = (count as usize).min(table.len());
    for i in 0..(n + 1) / 2 {
        table[2 * i] = 0;
    }
    for j in 0..n / 2 {
        table[2 * j + 1] = 0;
    }
}
