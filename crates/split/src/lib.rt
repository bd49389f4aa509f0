// Split order (figure 2): the split keys, by which the one list is kept in order.
#![tactic(auto)]

ghost use Rattle.std.specs.Prelude.{◌≡◌};
ghost use Rattle.split.specs.Split.{reverse, regular, dummy};

// The 32 bits of x in reverse, lowest bit first: the order in which recursive split-ordering compares keys.
#[tactic(auto, using(crate::proofs::Laws::reversed))]
fn reverse(x: u32) -> u32
    ensures { result ≡ reverse x }
{
    x.reverse_bits()
}

// A regular key's split key: the reversal of the key with its top bit set, so that it comes after its bucket's dummy.
#[tactic(auto, unfolding(crate::specs::Split::regular))]
pub fn regular_key(key: u32) -> u32
    ensures { result ≡ regular key }
{
    reverse(key % 2147483648 + 2147483648)
}

// A dummy's split key: the reversal of its bucket's number, so that it comes before all keys of the bucket.
#[tactic(auto, unfolding(crate::specs::Split::dummy))]
pub fn dummy_key(bucket: u32) -> u32
    ensures { result ≡ dummy bucket }
{
    reverse(bucket)
}
