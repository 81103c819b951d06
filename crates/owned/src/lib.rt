//! Calls of a host that owns its words: what the library's calls answer and leave, without a look at all that is held.
//!
//! They ask that state, table and kept committees are as the last of a member's calls left them (specs/Owned), and leave them so. docs/HOSTS.md.
#![tactic(auto)]

pub mod applied;
pub mod batches;
pub mod calls;
pub mod committing;
pub mod known;
pub mod leaders;
pub mod lists;
pub mod making;
pub mod marks;
pub mod pivots;
pub mod port_calls;
pub mod previewing;
pub mod queue_calls;
pub mod renewal;
pub mod resuming;
pub mod rooted;
pub mod theorems;
pub mod together;
pub mod views;
