//! Weights add up, by the transactions of the chain.
//!
//! Definitions and theorems, no code. What a chain's transactions bond and release, told from those before them (specs/Ledger). Over every list of calls from an accepted open each member's weight, and the total, is the start plus what was bonded less what was released; no total is above 81,536,000 (specs/Balance). docs/RULES.md, "Committees".
#![tactic(auto)]

pub mod theorems;
