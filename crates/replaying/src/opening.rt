//! The members of a list, opened by its head: each has its words, and the committees beside them.

ghost use Rattle.std.specs.Prelude.{◌≡◌, [], ◌<◌, ◌≤◌, ℕ, length, IfOk, IfErr, OnOk};
ghost use Rattle.chain_committees.specs.Caches.{words_to};
ghost use Rattle.refusals.specs.Refusals.{refusal_in};
ghost use Rattle.hosting.specs.Calls.{plain, Done};
ghost use Rattle.hosting.specs.HostCalls.{comes_to, opens};
ghost use Rattle.owned.specs.Owned.{Owned};
ghost use Rattle.replaying.specs.Opened.{settings_of, lent, opened, Opens, Unlent, Unopened, Unready};
ghost use Rattle.replaying.specs.Runs.{words_of, OwnedWords, AllOwned, Stand};

use crate::calls::Keeper;
use crate::failure::{Failure, push};
use crate::heads::Head;
use chain_committees::cache;
use owned::resuming;
use refusals::Refusal;
use std::alloc::Global;
use store::places;
use terms::sheet::Rights;
use terms::{Member, sheet};
use words::bodies::lengths::STATE;

// An open over words: state and table as they are lent, and what the head says.
#[tactic(auto, using(hosting::proofs::Answered::result_read, hosting::proofs::Answered::result_unread, hosting::proofs::Answered::some_number), unfolding(engine::specs::Values::value_of))]
fn open(state: &mut [u32], table: &mut [u32], own: u32, head: &Head) -> Result<(), Refusal>
    ensures { Done plain (comes_to state.old table.old (opens own head.now.sheet head.now.rights))
        (refusal_in result) state.new table.new [] }
{
    if state.len() < STATE {
        return Err(Refusal::Malformed);
    }
    let Some(written) = words::sheets::sheet(&head.sheet, Rights(head.rights)) else {
        return Err(Refusal::Malformed);
    };
    let mut s = open::closed();
    open::open(&mut s, table, Member(own), written)?;
    words::states::put_state(state, &s);
    Ok(())
}

// The same, and the committees that are kept from there on.
fn open_owned(
    state: &mut [u32],
    table: &mut [u32],
    kept: &mut [u64],
    own: u32,
    head: &Head,
) -> Result<(), Refusal>
    requires { words_to (settings_of head.now).ceiling ≤ length kept.old }
    ensures done { Done plain
        (comes_to state.old table.old (opens own head.now.sheet head.now.rights))
        (refusal_in result) state.new table.new [] }
    ensures owned { OnOk result (Owned state.new table.new kept.new) }
{
    open(state, table, own, head)?;
    // What an open leaves can be resumed, where there is room (owned::theorems, `opened_resumes`).
    resuming::resume(state, table, kept);
    Ok(())
}

// What is lent to an open by the head: a state and a table of zeros, and committees with room for all rounds.
fn lent(alloc: Global, head: &Head) -> Result<Keeper, Failure>
    ensures words { IfOk result (λ k. words_of k ≡ lent head.now) }
    ensures room { IfOk result (λ k. words_to (settings_of head.now).ceiling
        ≤ length k.kept.items) }
    ensures failed { IfErr result (Unlent head.now) }
{
    let Some(written) = words::sheets::sheet(&head.sheet, Rights(head.rights)) else {
        return Err(Failure::Refused(Refusal::Malformed.number()));
    };
    let ceiling = sheet::fill(written).ceiling;
    Ok(Keeper {
        state: vec![in alloc; 0; STATE]?,
        table: vec![in alloc; 0; places::used_length(ceiling)]?,
        kept: vec![in alloc; 0; cache::words_to(ceiling)]?,
    })
}

// A member's words, opened, and the committees that its host keeps beside them.
#[tactic(auto, using(crate::proofs::OpenedLaws::unopened, hosting::proofs::Answered::some_number))]
fn opened(alloc: Global, own: u32, head: &Head) -> Result<Keeper, Failure>
    ensures words { IfOk result (λ k. words_of k ≡ opened head.now own) }
    ensures accepted { OnOk result (Opens head.now own) }
    ensures owned { IfOk result OwnedWords }
    ensures failed { IfErr result (Unopened head.now own) }
{
    let mut keeper = lent(alloc, head)?;
    open_owned(
        &mut keeper.state,
        &mut keeper.table,
        &mut keeper.kept,
        own,
        head,
    )
    .map_err(|refusal| Failure::Refused(refusal.number()))?;
    Ok(keeper)
}

/// The members of a list, opened.
///
/// # Errors
/// The first open that is refused, memory.
#[tactic(auto, using(crate::proofs::OpenedLaws::unready))]
pub fn opens(alloc: Global, head: &Head) -> Result<Vec<Keeper>, Failure>
    ensures members { IfOk result (λ v. length v.items ≡ head.now.members) }
    ensures words { IfOk result (λ v. Stand v.items (opened head.now)) }
    ensures accepted { OnOk result ((k : ℕ) → k < head.now.members → Opens head.now k) }
    ensures owned { IfOk result (λ v. AllOwned v.items) }
    ensures failed { IfErr result (Unready head.now) }
{
    let mut all = Vec::new(alloc);
    for own in 0..head.members {
        push(&mut all, opened(alloc, own, head)?)?;
    }
    Ok(all)
}
