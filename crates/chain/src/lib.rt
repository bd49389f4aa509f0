// The registered keys, counted off the chain.
#![tactic(auto)]

ghost use Rattle.std.specs.Prelude.{◌≡◌};
ghost use Rattle.chain.specs.Chain.{is_key, keys_from};

use words::Link;

// The node is unmarked with a regular split key.
#[tactic(auto, unfolding(crate::specs::Chain::is_key))]
fn is_key(nodes: &[u32], n: u32) -> bool
    ensures { result ≡ is_key nodes.now n }
{
    let link = Link::from(words::word(nodes, n, words::LINK));
    let split = words::word(nodes, n, words::SPLIT_KEY);
    !link.marked && split % 2 == 1
}

// How many keys are registered on the chain from node n, followed for at most so many nodes: a chain of foreign words may not end.
#[tactic(auto, using(crate::proofs::Laws::counting))]
pub fn keys_from(nodes: &[u32], most: u32, n: u32) -> u32
    ensures { result ≡ keys_from nodes.now most n }
{
    let mut count: u32 = 0;
    let mut at = n;
    for _ in 0..most {
        if at == 0 {
            break;
        }
        count += u32::from(is_key(nodes, at));
        at = Link::from(words::word(nodes, at, words::LINK)).next;
    }
    count
}
