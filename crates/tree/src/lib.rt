// The tree of the buckets (figure 2, GET_PARENT): each bucket but 0 was split from its parent, and their number is a power of two.
#![tactic(auto)]

ghost use Rattle.std.specs.Prelude.{◌≡◌};
ghost use Rattle.tree.specs.Tree.{parent_of, on_path, next_down, power_up_to};

// A bucket's parent, the bucket that it was split from: its number with the top set bit cleared.
#[tactic(auto, using(crate::proofs::Laws::parent_zero, crate::proofs::Laws::parent_cleared))]
pub fn parent(bucket: u32) -> u32
    ensures { result ≡ parent_of bucket }
{
    match bucket.checked_ilog2() {
        Some(top) => bucket - (1 << top),
        None => 0,
    }
}

// Is the ancestor on the path from the bucket to bucket 0, whose dummies are made before the bucket's own?
#[tactic(auto, using(crate::proofs::Laws::paths))]
pub fn on_path(bucket: u32, ancestor: u32) -> bool
    ensures { result ≡ on_path bucket ancestor }
{
    if ancestor == bucket {
        return true;
    }
    if bucket == 0 {
        return false;
    }
    on_path(parent(bucket), ancestor)
}

// The bucket just below `making` on the path from the bucket to 0, whose dummy is made next; 0 where there is none.
// No Option: the record keeps the number, and 0 is no bucket that is made.
#[tactic(auto, using(crate::proofs::Laws::downs))]
pub fn next_down(bucket: u32, making: u32) -> u32
    ensures { result ≡ next_down bucket making }
{
    if bucket == 0 {
        return 0;
    }
    let p = parent(bucket);
    if p == making {
        return bucket;
    }
    next_down(p, making)
}

// x is a power of two from 2 to `most`.
#[tactic(auto, using(crate::proofs::Laws::power_counted), unfolding(crate::specs::Tree::power_up_to))]
pub fn power_up_to(most: u32, x: u32) -> bool
    ensures { result ≡ power_up_to most x }
{
    (2..=most).contains(&x) && x.is_power_of_two()
}
