//! Runs that meet the premises of what is claimed of runs.
//!
//! Theorems, no code. Under each margin, with draws, batches and guests' requests, and over the library's words: for each claim a list of calls that its premises are said of, with the numbers that answer them and the chain that they make (specs/). docs/RULES.md, "What is claimed of runs".
#![tactic(auto)]

pub mod theorems;
