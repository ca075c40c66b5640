//! Totals over lists, what stands in a list, and how often a number does: words and laws that many crates share.
//! It has no code: what it holds is in `specs` and `proofs`.
#![tactic(auto)]
