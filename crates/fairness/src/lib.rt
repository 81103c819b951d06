//! What calls leave in guests' queues; draws are fair.
//!
//! Theorems, no code. What each call draws and leaves (specs/Kept, specs/Batches, specs/Guests). Between two transactions drawn from one guest every other guest that was waiting all that time has one drawn, over every list of calls (specs/Fairness). docs/RULES.md, "Guests' queues".
#![tactic(auto)]

pub mod theorems;
