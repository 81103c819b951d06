//! All calls as one engine: refused, or as ruled.
//!
//! Definitions and theorems, no code. A call and what is handed in (specs/Calls), the number that refuses it and what it leaves (specs/Engine), the value that it answers (specs/Values). Every call is refused and changes no word, or leaves what the rules say (`every_step`, theorems; `Step`, specs/Steps); so does every list of them (specs/Sequences, specs/Reached).
//! What a guest may ask, and the right that each call needs: specs/Guests. Rights stay: `rights_stay` (theorems).
#![tactic(auto)]

pub mod theorems;
