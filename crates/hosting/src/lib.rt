//! A host's call: words in, the engine, words out.
//!
//! Every call and read over any words and lengths: the number that refuses it, and each word that it leaves in state, table and out (specs/Calls, specs/Answers). A guest's form asks for the caller's right first (specs/Guested). docs/HOSTS.md.
#![tactic(auto)]

pub mod guesting;
pub mod theorems;

ghost use Rattle.std.specs.Prelude.{◌≡◌};
ghost use Rattle.refusals.specs.Refusals.{refusal_in, packed_in};

use refusals::Refusal;

/// The number that refuses, 0 where the call is accepted.
pub fn plain(answer: Result<(), Refusal>) -> u32
    ensures { result ≡ refusal_in answer }
{
    match answer {
        Ok(()) => 0,
        Err(refusal) => refusal.number(),
    }
}

/// The value in the low 32 bits, the number that refuses in the high ones.
pub fn packed(answer: Result<u32, Refusal>) -> u64
    ensures { result ≡ packed_in answer }
{
    match answer {
        Ok(value) => value as u64,
        Err(refusal) => (refusal.number() as u64) << 32,
    }
}
