//! Over any rules that meet its laws, chains never fork.
//!
//! Theorems, no code. The rules are data (specs/Rules) that meet laws (specs/Laws); members move over their views (specs/Moves, specs/Machines). Of every run in which faulty members stay within the bound (specs/Runs, specs/Invariants): of two correct members' chains one is a prefix of the other, committees of rounds that both know are alike, and a chain only grows (`never_fork`, `committees_agree`, `chains_grow`, `blocks_stay`, theorems).
#![tactic(auto)]

pub mod theorems;
