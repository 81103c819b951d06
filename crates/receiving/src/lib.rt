//! What a serial port has given is a listing's prefix.
//!
//! Theorems, no code. Over every list of hosts' and guests' requests, the bytes that a port has given since its reset are a prefix of the listing, and no call changes a port but an open and what is asked of it (specs/Received). docs/RULES.md, "Serial ports".
#![tactic(auto)]

pub mod theorems;
