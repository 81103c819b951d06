//! What a record asks for and is answered.
//!
//! The call that a record asks for (specs/Asked), the engine that it leaves and the bytes that answer it (specs/Records), and the committees kept beside the state. docs/RULES.md, "Records".
#![tactic(auto)]

pub mod answer;
pub mod cached;
pub mod theorems;
