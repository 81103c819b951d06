//! The checks of a commit, and the votes for an anchor.
//!
//! Checks of time and of the anchor (specs/Checks), and what the votes for the anchor of the round before weigh against the bound (specs/Votes): commit, its preview and the list of what it hangs on share them. docs/RULES.md, "Commit".
#![tactic(auto)]

pub mod checks;
pub mod counting;
