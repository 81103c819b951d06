//! Words and answers as bytes, the lowest byte of each first.

ghost use Rattle.std.specs.Prelude.{◌≡◌, ◌++◌, IfOk, IfErr, OnOk};
ghost use Rattle.std.specs.List.{flat_map};
ghost use Rattle.replaying.specs.Replays.{IsWords, bytes_of, NoWords, answer_bytes, keeper_bytes, told_bytes};
ghost use Rattle.replaying.specs.Lists.{Unread};
ghost use Rattle.replaying.specs.declared.failure.Failure.TheVariants.{Memory};

use crate::calls::Keeper;
use crate::failure::{Failure, push};
use std::alloc::Global;

/// The words of a list's bytes, four for each.
///
/// # Errors
/// Bytes that are of no words, memory.
#[tactic(auto, using(crate::proofs::UnmadeLaws::no_words))]
pub fn words_in(alloc: Global, bytes: &[u8]) -> Result<Vec<u32>, Failure>
    ensures words { IfOk result (λ v. bytes.now ≡ bytes_of v.items) }
    ensures fit { IfOk result (λ v. IsWords v.items) }
    ensures none { IfErr result (Unread (NoWords bytes.now)) }
{
    let mut words = Vec::new(alloc);
    let mut rest = bytes;
    while let Some((four, behind)) = rest.split_first_chunk::<4>() {
        push(&mut words, u32::from_le_bytes(*four))?;
        rest = behind;
    }
    match rest {
        [] => Ok(words),
        _ => Err(Failure::Damaged),
    }
}

// Puts words behind what is there.
fn put_words(out: &mut Vec<u8>, words: &[u32]) -> Result<(), Failure>
    ensures bytes { OnOk result (out.new.items ≡ out.old.items ++ bytes_of words.now) }
    ensures failed { IfErr result (λ f. f ≡ Memory) }
{
    for word in words {
        out.extend_from_slice(&word.to_le_bytes())?;
    }
    Ok(())
}

// Puts answers behind what is there.
fn put_answers(out: &mut Vec<u8>, answers: &[u64]) -> Result<(), Failure>
    ensures bytes { OnOk result (out.new.items ≡ out.old.items ++ answer_bytes answers.now) }
    ensures failed { IfErr result (λ f. f ≡ Memory) }
{
    for answer in answers {
        out.extend_from_slice(&answer.to_le_bytes())?;
    }
    Ok(())
}

// Puts a member's state and table behind what is there.
fn put_keeper(out: &mut Vec<u8>, keeper: &Keeper) -> Result<(), Failure>
    ensures bytes { OnOk result (out.new.items ≡ out.old.items ++ keeper_bytes keeper.now) }
    ensures failed { IfErr result (λ f. f ≡ Memory) }
{
    put_words(out, &keeper.state)?;
    put_words(out, &keeper.table)
}

/// The bytes that tell what came of a list: its answers, and then each member's state and table.
pub fn told(alloc: Global, keepers: &[Keeper], answers: &[u64]) -> Result<Vec<u8>, Failure>
    ensures bytes { IfOk result (λ v. v.items ≡ told_bytes keepers.now answers.now) }
    ensures failed { IfErr result (λ f. f ≡ Memory) }
{
    let mut out = Vec::new(alloc);
    put_answers(&mut out, answers)?;
    for keeper in keepers {
        put_keeper(&mut out, keeper)?;
    }
    Ok(out)
}
