// Things that each have a slot of their own, and one slot that stands empty: more things than that leave one without a slot. Laws and proofs; no code.
#![tactic(auto)]
