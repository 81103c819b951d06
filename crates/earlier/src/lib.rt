//! Every run of now was a run by the earlier rules.
//!
//! Theorems, no code. By the earlier rules an advance asked for no quorum (specs/Earlier). Members refuse more now, and a run, its refused calls left out, was allowed then with the same engines, so what holds of those runs carries over (specs/Refusing). docs/RULES.md, "Advance".
#![tactic(auto)]

pub mod theorems;
