//! The calls of a host that owns its words: propose, endorse, certify, accept, advance, commit.
#![tactic(auto, using(hosting::proofs::Answered::result_read, hosting::proofs::Answered::result_unread, hosting::proofs::Answered::some_number), unfolding(engine::specs::Values::value_of))]

ghost use Rattle.std.specs.Prelude.{◌≡◌, [], IfErr};
ghost use Rattle.refusals.specs.Refusals.{refusal_in, packed_in};
ghost use Rattle.hosting.specs.Calls.{plain, packed, Done};
ghost use Rattle.hosting.specs.HostCalls.{comes_to, propose, endorse, certify, accept, advance, commit};
ghost use Rattle.owned.specs.Known.{BeginsStill};
ghost use Rattle.owned.specs.Owned.{Owned};

use crate::{committing, known};
use accept::accept_cached;
use advance::advance_cached;
use certify::certify_cached;
use endorse::endorse_cached;
use propose::propose_cached;
use refusals::Refusal;

/// Propose, of a host that owns its words.
pub fn propose(state: &mut [u32], table: &[u32], kept: &[u64], body: &[u32]) -> Result<(), Refusal>
    requires { Owned state.old table.now kept.now }
    ensures done { Done plain (comes_to state.old table.now (propose body.now)) (refusal_in result)
        state.new table.now [] }
    ensures owned { Owned state.new table.now kept.now }
{
    let Some(mut s) = words::states::state(state) else {
        return Err(Refusal::Malformed);
    };
    let Some(b) = words::bodies::body(body) else {
        return Err(Refusal::Malformed);
    };
    let words = known::words(&s, table, kept);
    propose_cached(true, &kept[..words], &mut s, table, b)?;
    words::states::put_state(state, &s);
    Ok(())
}

/// Endorse, of a host that owns its words.
pub fn endorse(
    state: &[u32],
    table: &mut [u32],
    kept: &[u64],
    proposal: &[u32],
) -> Result<(), Refusal>
    requires { Owned state.now table.old kept.now }
    ensures done { Done plain (comes_to state.now table.old (endorse proposal.now))
        (refusal_in result) state.now table.new [] }
    ensures owned { Owned state.now table.new kept.now }
{
    let Some(s) = words::states::state(state) else {
        return Err(Refusal::Malformed);
    };
    let p = words::proposals::proposal(proposal).ok_or(Refusal::Malformed)?;
    let words = known::words(&s, table, kept);
    endorse_cached(true, &kept[..words], &s, table, p)
}

/// Certify, of a host that owns its words.
pub fn certify(
    state: &[u32],
    table: &mut [u32],
    kept: &[u64],
    endorsers: u32,
) -> Result<(), Refusal>
    requires { Owned state.now table.old kept.now }
    ensures done { Done plain (comes_to state.now table.old (certify endorsers)) (refusal_in result)
        state.now table.new [] }
    ensures owned { Owned state.now table.new kept.now }
{
    let Some(s) = words::states::state(state) else {
        return Err(Refusal::Malformed);
    };
    let Ok(endorsers) = u16::try_from(endorsers) else {
        return Err(Refusal::Malformed);
    };
    let words = known::words(&s, table, kept);
    certify_cached(true, &kept[..words], &s, table, endorsers)
}

/// Accept, of a host that owns its words.
pub fn accept(
    state: &[u32],
    table: &mut [u32],
    kept: &[u64],
    certificate: &[u32],
) -> Result<(), Refusal>
    requires { Owned state.now table.old kept.now }
    ensures done { Done plain (comes_to state.now table.old (accept certificate.now))
        (refusal_in result) state.now table.new [] }
    ensures owned { Owned state.now table.new kept.now }
{
    let Some(s) = words::states::state(state) else {
        return Err(Refusal::Malformed);
    };
    let c = words::proposals::certificate(certificate).ok_or(Refusal::Malformed)?;
    let words = known::words(&s, table, kept);
    accept_cached(true, &kept[..words], &s, table, c)
}

/// Advance, of a host that owns its words.
pub fn advance(state: &mut [u32], table: &[u32], kept: &[u64]) -> Result<(), Refusal>
    requires { Owned state.old table.now kept.now }
    ensures done { Done plain (comes_to state.old table.now advance) (refusal_in result)
        state.new table.now [] }
    ensures owned { Owned state.new table.now kept.now }
{
    let Some(mut s) = words::states::state(state) else {
        return Err(Refusal::Malformed);
    };
    let words = known::words(&s, table, kept);
    advance_cached(true, &kept[..words], &mut s, table)?;
    words::states::put_state(state, &s);
    Ok(())
}

/// Commit, of a host that owns its words: the blocks that are added, and the kept committees renewed by them.
pub fn commit(state: &mut [u32], table: &mut [u32], kept: &mut [u64]) -> Result<u32, Refusal>
    requires { Owned state.old table.old kept.old }
    ensures done { Done packed (comes_to state.old table.old commit) (packed_in result)
        state.new table.new [] }
    ensures owned { Owned state.new table.new kept.new }
    ensures begins { BeginsStill kept.old kept.new }
    ensures same { IfErr result (λ e. kept.new ≡ kept.old) }
{
    let Some(mut s) = words::states::state(state) else {
        return Err(Refusal::Malformed);
    };
    let added = committing::commit_kept(&mut s, table, kept)?;
    words::states::put_state(state, &s);
    Ok(added)
}
