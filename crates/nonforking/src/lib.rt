//! Chains never fork, over every list of calls.
//!
//! Theorems, no code. Of correct members of equal filled settings, whatever faulty ones send: chains are prefixes of one another and committees alike (specs/Statement, the claim and its premises). What is stored with a certificate stays and is shown: specs/Stored. docs/RULES.md, "What is claimed of runs".
#![tactic(auto)]

pub mod theorems;
