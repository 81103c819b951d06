//! The reads that a host makes: committee, share, bond effect, certificate, block, and the length of a table.
#![tactic(auto, using(hosting::proofs::Answered::result_read, hosting::proofs::Answered::result_unread, hosting::proofs::Answered::some_number), unfolding(engine::specs::Values::value_of, reads::specs::Reads::committee_refusal, reads::specs::Reads::share_refusal, reads::specs::Reads::effect_refusal, reads::specs::Reads::certificate_refusal, reads::specs::Reads::block_refusal, reads::specs::Held::certificate_read))]

ghost use Rattle.std.specs.Prelude.{◌≡◌, []};
ghost use Rattle.store.specs.Table.{used_length};
ghost use Rattle.engine.specs.Calls.{committee, share, effect, certificate, block};
ghost use Rattle.refusals.specs.Refusals.{refusal_in, packed_in};
ghost use Rattle.hosting.specs.Calls.{plain, packed, Done};
ghost use Rattle.hosting.specs.HostCalls.{comes_to, aside};

use reads::{bonding, standing};
use refusals::Refusal;
use store::places;
use terms::{Member, Round};
use words::bodies::lengths::{COMMITTEE, EFFECT, HELD};

/// Puts the sixteen weights of a round's committee into the first 16 words of `out`, 0 for one who is no member of it. State and table are only read. Answers 0, or the number that refuses: 1, 5, 8. docs/RULES.md, "Committees" and "Reads".
#[unsafe(no_mangle)]
pub extern "C" fn forgelilac_committee(
    state: &[u32],
    table: &[u32],
    round: u32,
    out: &mut [u32],
) -> u32
    ensures { Done plain
        (comes_to state.now table.now (aside (committee round) out.old)) result
        state.now table.now out.new }
{
    hosting::plain(committee(state, table, round, out))
}

// The call, told as a result.
fn committee(state: &[u32], table: &[u32], round: u32, out: &mut [u32]) -> Result<(), Refusal>
    ensures { Done plain
        (comes_to state.now table.now (aside (committee round) out.old))
        (refusal_in result) state.now table.now out.new }
{
    let Some(s) = words::states::state(state) else {
        return Err(Refusal::Malformed);
    };
    if out.len() < COMMITTEE {
        return Err(Refusal::Malformed);
    }
    let weights = standing::committee(&s, table, Round(round))?;
    words::put_weights(out, 0, weights);
    Ok(())
}

/// Gives the share of a member in a round's committee, in thousandths. State and table are only read. The low half of the answer is the share, the high half the number that refuses, 0 for none: 1, 4, 5, 8, 9. docs/RULES.md, "Shares".
#[unsafe(no_mangle)]
pub extern "C" fn forgelilac_share(state: &[u32], table: &[u32], member: u32, round: u32) -> u64
    ensures { Done packed (comes_to state.now table.now
        (aside (share (record { 0 = member }) round) [])) result
        state.now table.now [] }
{
    hosting::packed(share(state, table, member, round))
}

// The call, told as a result.
fn share(state: &[u32], table: &[u32], member: u32, round: u32) -> Result<u32, Refusal>
    ensures { Done packed
        (comes_to state.now table.now
        (aside (share (record { 0 = member }) round) []))
        (packed_in result) state.now table.now [] }
{
    let s = words::states::state(state).ok_or(Refusal::Malformed)?;
    standing::share(&s, table, Member(member), Round(round))
}

/// Tells how far a bond of the member by the amount would move the shares of a round's committee: the sixteen shares before, the sixteen after, and the largest difference, into the first 33 words of `out`. State and table are only read. Answers 0, or the number that refuses: 1, 4, 5, 6, 8, 30. docs/RULES.md, "How far a bond moves the shares".
#[unsafe(no_mangle)]
pub extern "C" fn forgelilac_bond_effect(
    state: &[u32],
    table: &[u32],
    member: u32,
    round: u32,
    amount: u32,
    out: &mut [u32],
) -> u32
    ensures { Done plain
        (comes_to state.now table.now
        (aside (effect (record { 0 = member }) round amount) out.old))
        result state.now table.now out.new }
{
    hosting::plain(bond_effect(state, table, member, round, amount, out))
}

// The call, told as a result.
fn bond_effect(
    state: &[u32],
    table: &[u32],
    member: u32,
    round: u32,
    amount: u32,
    out: &mut [u32],
) -> Result<(), Refusal>
    ensures { Done plain
        (comes_to state.now table.now
        (aside (effect (record { 0 = member }) round amount) out.old))
        (refusal_in result) state.now table.now out.new }
{
    let Some(s) = words::states::state(state) else {
        return Err(Refusal::Malformed);
    };
    if out.len() < EFFECT {
        return Err(Refusal::Malformed);
    }
    let effect = bonding::effect(&s, table, Member(member), Round(round), amount)?;
    words::put_effect(out, effect);
    Ok(())
}

/// Puts a certificate that is held into the first 18 words of `out`: its proposal, the endorsers that it was first stored with, and the number of its block, 0 for none. State and table are only read. Answers 0, or the number that refuses: 1, 4, 5, 23. docs/RULES.md, "Reads".
#[unsafe(no_mangle)]
pub extern "C" fn forgelilac_certificate(
    state: &[u32],
    table: &[u32],
    author: u32,
    round: u32,
    out: &mut [u32],
) -> u32
    ensures { Done plain
        (comes_to state.now table.now
        (aside (certificate (record { 0 = author }) round) out.old)) result
        state.now table.now out.new }
{
    hosting::plain(certificate(state, table, author, round, out))
}

// The call, told as a result.
fn certificate(
    state: &[u32],
    table: &[u32],
    author: u32,
    round: u32,
    out: &mut [u32],
) -> Result<(), Refusal>
    ensures { Done plain
        (comes_to state.now table.now
        (aside (certificate (record { 0 = author }) round) out.old))
        (refusal_in result) state.now table.now out.new }
{
    let Some(s) = words::states::state(state) else {
        return Err(Refusal::Malformed);
    };
    if out.len() < HELD {
        return Err(Refusal::Malformed);
    }
    let held = reads::certificate(&s, table, Member(author), Round(round))?;
    words::proposals::put_held(out, held.proposal, held.endorsers, held.block);
    Ok(())
}

/// Gives the round of a block by its number, from 1 on. State and table are only read. The low half of the answer is the round, the high half the number that refuses, 0 for none: 1, 23. docs/RULES.md, "Reads".
#[unsafe(no_mangle)]
pub extern "C" fn forgelilac_block(state: &[u32], table: &[u32], number: u32) -> u64
    ensures { Done packed (comes_to state.now table.now (aside (block number) [])) result
        state.now table.now [] }
{
    hosting::packed(block(state, table, number))
}

// The call, told as a result.
fn block(state: &[u32], table: &[u32], number: u32) -> Result<u32, Refusal>
    ensures { Done packed (comes_to state.now table.now (aside (block number) []))
        (packed_in result) state.now table.now [] }
{
    let s = words::states::state(state).ok_or(Refusal::Malformed)?;
    let round = reads::block(&s, table, number)?;
    Ok(round.0)
}

/// Gives how many words a table needs for a ceiling: 272 for each round, and 272 more. It refuses nothing. docs/TABLES.md, "Length".
#[unsafe(no_mangle)]
pub extern "C" fn forgelilac_table_words(ceiling: u32) -> u64
    ensures { result ≡ used_length ceiling }
{
    places::used_length(Round(ceiling)) as u64
}
