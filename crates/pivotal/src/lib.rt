//! A commit hangs on its anchor and on decisive votes.
//!
//! Theorems, no code. In every engine that calls lead to from an accepted open: on the anchor, on each vote without which the others weigh not more than the bound, and on nothing else (specs/Pivotal). docs/RULES.md, "What a commit hangs on".
#![tactic(auto)]

pub mod theorems;
