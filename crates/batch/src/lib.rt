//! A row of certificates, tried in its order.
//!
//! Definitions and theorems, no code. Every place of the row has exactly one turn, by rising round, then author, then place (specs/Turns, specs/Order). Each certificate gets what accept answers at its turn, at its original place of the answers (specs/Batch). Straight afterwards one that got 11 gets 11 again, or 17 where the row has since filled its place with another (specs/Again). docs/RULES.md, "Batches".
#![tactic(auto)]

pub mod theorems;
