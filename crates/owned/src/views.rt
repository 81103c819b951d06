//! The reads of a host that owns its words: committee, share, bond effect, certificate and block, with no look at all that is held.
#![tactic(auto, using(hosting::proofs::Answered::result_read, hosting::proofs::Answered::result_unread, hosting::proofs::Answered::some_number), unfolding(engine::specs::Values::value_of, reads::specs::Reads::committee_refusal, reads::specs::Reads::share_refusal, reads::specs::Reads::effect_refusal, reads::specs::Reads::certificate_refusal, reads::specs::Reads::block_refusal, reads::specs::Held::certificate_read))]

ghost use Rattle.std.specs.Prelude.{◌≡◌, []};
ghost use Rattle.engine.specs.Calls.{committee, share, effect, certificate, block};
ghost use Rattle.refusals.specs.Refusals.{refusal_in, packed_in};
ghost use Rattle.hosting.specs.Calls.{plain, packed, Done};
ghost use Rattle.hosting.specs.HostCalls.{comes_to, aside};
ghost use Rattle.owned.specs.Owned.{Owned};

use crate::known;
use reads::{bonding, standing};
use refusals::Refusal;
use terms::{Member, Round};
use words::bodies::lengths::{COMMITTEE, EFFECT, HELD};

/// The sixteen weights of a round's committee, into the first 16 words of `out`.
pub fn committee(
    state: &[u32],
    table: &[u32],
    kept: &[u64],
    round: u32,
    out: &mut [u32],
) -> Result<(), Refusal>
    requires { Owned state.now table.now kept.now }
    ensures { Done plain
        (comes_to state.now table.now (aside (committee round) out.old))
        (refusal_in result) state.now table.now out.new }
{
    let Some(s) = words::states::state(state) else {
        return Err(Refusal::Malformed);
    };
    if out.len() < COMMITTEE {
        return Err(Refusal::Malformed);
    }
    let weights = standing::committee_of(&known::view(&s, table, kept), Round(round))?;
    words::put_weights(out, 0, weights);
    Ok(())
}

/// The share of a member in a round's committee, in thousandths.
pub fn share(
    state: &[u32],
    table: &[u32],
    kept: &[u64],
    member: u32,
    round: u32,
) -> Result<u32, Refusal>
    requires { Owned state.now table.now kept.now }
    ensures { Done packed
        (comes_to state.now table.now
        (aside (share (record { 0 = member }) round) []))
        (packed_in result) state.now table.now [] }
{
    let Some(s) = words::states::state(state) else {
        return Err(Refusal::Malformed);
    };
    standing::share_of(&known::view(&s, table, kept), Member(member), Round(round))
}

/// How far a bond of the member by the amount would move the shares of a round's committee, into the first 33 words of `out`.
// Seven parameters: those of the host's call.
pub fn bond_effect(
    state: &[u32],
    table: &[u32],
    kept: &[u64],
    member: u32,
    round: u32,
    amount: u32,
    out: &mut [u32],
) -> Result<(), Refusal>
    requires { Owned state.now table.now kept.now }
    ensures { Done plain
        (comes_to state.now table.now
        (aside (effect (record { 0 = member }) round amount) out.old))
        (refusal_in result) state.now table.now out.new }
{
    let Some(s) = words::states::state(state) else {
        return Err(Refusal::Malformed);
    };
    if out.len() < EFFECT {
        return Err(Refusal::Malformed);
    }
    let effect = bonding::effect_of(
        &known::view(&s, table, kept),
        Member(member),
        Round(round),
        amount,
    )?;
    words::put_effect(out, effect);
    Ok(())
}

/// A certificate that is held, into the first 18 words of `out`.
pub fn certificate(
    state: &[u32],
    table: &[u32],
    kept: &[u64],
    author: u32,
    round: u32,
    out: &mut [u32],
) -> Result<(), Refusal>
    requires { Owned state.now table.now kept.now }
    ensures { Done plain
        (comes_to state.now table.now
        (aside (certificate (record { 0 = author }) round) out.old))
        (refusal_in result) state.now table.now out.new }
{
    let Some(s) = words::states::state(state) else {
        return Err(Refusal::Malformed);
    };
    if out.len() < HELD {
        return Err(Refusal::Malformed);
    }
    let held = reads::certificate_of(&known::view(&s, table, kept), Member(author), Round(round))?;
    words::proposals::put_held(out, held.proposal, held.endorsers, held.block);
    Ok(())
}

/// The round of a block by its number, from 1 on.
pub fn block(state: &[u32], table: &[u32], kept: &[u64], number: u32) -> Result<u32, Refusal>
    requires { Owned state.now table.now kept.now }
    ensures { Done packed (comes_to state.now table.now (aside (block number) []))
        (packed_in result) state.now table.now [] }
{
    let Some(s) = words::states::state(state) else {
        return Err(Refusal::Malformed);
    };
    let round = reads::block_of(&known::view(&s, table, kept), number)?;
    Ok(round.0)
}
