//! A member's words as bytes: stored, loaded and signed.
//!
//! The stored form has a head, the state's words, the table's used words and a digest over all of these (specs/Stored). To store writes exactly these bytes (specs/Storing); to load gives the words back, and refuses every other bytes before it writes a word (specs/Loading). What is signed of a proposal, an endorsement and a certificate has one form each (specs/Signed). docs/TABLES.md, "The stored form"; docs/HOSTS.md, "What is signed, to the byte".
#![tactic(auto)]

mod bytes;
pub mod loading;
pub mod refusal;
pub mod signed;
pub mod stored;
pub mod theorems;
