//! The committees of rounds, from the chain in the table.
//!
//! The starting weights, changed by the blocks of the chain, oldest first: whether a round is known, its committee, and its leader are those of the chain that the table shows (specs/ChainInTable, specs/BlockChanges), whatever its marks are. They are found by a walk over its blocks (`walk`), and may be kept beside the table, by round (`cache`, specs/Caches).
#![tactic(auto)]

pub mod bonded;
pub mod cache;
pub mod chain;
pub mod changes;
pub mod leaders;
pub mod walk;
