//! A run's calls read from a list, and made again by the calls of hosts that own their words.
//!
//! A list has what all members open with, and then call after call. Its words are read (specs/Lists), the members opened and the calls made by `making::run`, whose contract says that chains never fork where the calls are a run. What is told are the answers and the words that are left (specs/Replays). docs/PLANT.md, "The calls of a run, made again".
#![tactic(auto)]

pub mod calls;
pub mod failure;
pub mod heads;
pub mod making;
pub mod opening;
pub mod reading;
pub mod telling;
pub mod theorems;

ghost use Rattle.std.specs.Prelude.{◌≡◌, List, ℕ, IfOk, IfErr, IfSome, IsOk};
ghost use Rattle.std.specs.Io.KnownBytes.{Appends};
ghost use Rattle.replaying.specs.declared.calls.Entry.{Entry};
ghost use Rattle.replaying.specs.declared.heads.Head.{Head};
ghost use Rattle.replaying.specs.Runs.{AllOwned};
ghost use Rattle.replaying.specs.Replays.{Replays, Unmade, Told, Untold, Silent, Unserved};

use crate::calls::Keeper;
use crate::failure::Failure;
use std::alloc::Global;
use std::io::{Read, Write};

/// Makes a list again, by its words: what its members' hosts keep afterwards, and the answer to each call.
///
/// # Errors
/// Words that no list has, an open that is refused, memory.
#[tactic(auto, using(crate::proofs::UnmadeLaws::head_unmade, crate::proofs::UnmadeLaws::entries_unmade, crate::proofs::UnmadeLaws::opens_unmade))]
pub fn replay(alloc: Global, words: &[u32]) -> Result<(Vec<Keeper>, Vec<u64>), Failure>
    ensures made { IfOk result (λ p. (h : Head) × (l : List Entry)
        × Replays words.now h l p.0.items p.1.items) }
    ensures owned { IfOk result (λ p. AllOwned p.0.items) }
    ensures failed { IfErr result (Unmade words.now) }
{
    let (head, rest) = reading::head(words)?;
    let entries = reading::entries(alloc, head.members, rest)?;
    let mut keepers = opening::opens(alloc, &head)?;
    let mut answers = vec![in alloc; 0u64; entries.len()]?;
    making::run(&mut keepers, &entries, &mut answers);
    Ok((keepers, answers))
}

/// The bytes that tell what comes of the list whose bytes these are: the answers, eight bytes each, then each member's state and table, four bytes a word.
///
/// # Errors
/// Bytes of no words, and those of `replay`.
#[tactic(auto, using(crate::proofs::UnmadeLaws::words_untold, crate::proofs::UnmadeLaws::list_untold))]
pub fn tell(alloc: Global, bytes: &[u8]) -> Result<Vec<u8>, Failure>
    ensures made { IfOk result (λ told. Told bytes.now told.items) }
    ensures failed { IfErr result (Untold bytes.now) }
{
    let words = telling::words_in(alloc, bytes)?;
    let (keepers, answers) = replay(alloc, &words)?;
    telling::told(alloc, &keepers, &answers)
}

/// Makes the list again whose bytes a reader gives, to its end, and hands the bytes that tell what came of it to a writer. Nothing is handed out of a list that is not made again.
///
/// # Errors
/// Those of `tell`, and a read or a write that failed.
#[tactic(auto, using(crate::proofs::ServeLaws::told_known, crate::proofs::ServeLaws::unserved_known, crate::proofs::ServeLaws::silent_told))]
pub fn serve<R: Read, W: Write>(alloc: Global, input: &mut R, output: &mut W) -> Result<(), Failure>
    ensures made { IsOk result → IfSome (R.remaining input.old) (λ bytes. (told : List ℕ)
        × Told bytes told × Appends (W.contents output.old) (W.contents output.new) told) }
    ensures refused { IfErr result (λ f.
        Silent (R.remaining input.old) f (W.contents output.old) (W.contents output.new)) }
    ensures failed { IfErr result (λ f.
        IfSome (R.remaining input.old) (λ bytes. Unserved bytes f)) }
{
    let mut bytes = Vec::new(alloc);
    input.read_to_end(&mut bytes)?;
    let told = tell(alloc, &bytes)?;
    output.write_all(&told)?;
    output.flush()?;
    Ok(())
}
