//! The library: every call and read over lent words.
//!
//! The functions that hosts link, their own and their guests'. The public ones have no premise: on any words and lengths each answers and leaves what `hosting` says (its specs/Calls). An owner's, `forgelilac_owned_..`, says the same of words that are owned (owned/specs/Owned), and leaves them so. include/forgelilac.h declares them, docs/HOSTS.md describes them.
#![tactic(auto)]

mod batches;
mod block_rows;
mod calls;
mod criticals;
mod guest_calls;
mod guest_ports;
mod guest_views;
mod leaders;
mod owned_batches;
mod owned_calls;
mod owned_guest_calls;
mod owned_guest_views;
mod owned_ports;
mod owned_previews;
mod owned_queue_calls;
pub mod owned_runs;
mod owned_views;
mod port_calls;
mod previews;
mod queue_calls;
pub mod runs;
mod stores;
mod versions;
mod views;
