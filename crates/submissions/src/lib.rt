//! Chains never fork, with batches and guests' requests.
//!
//! Theorems, no code. A batch counts as its single calls (specs/Submissions); a guest's request is refused by the rights that its caller lacks and changes nothing, or does what the host's own call would (specs/Requests).
#![tactic(auto)]

pub mod theorems;
