//! The calls that a host makes: open, propose, endorse, certify, accept, advance, commit.
#![tactic(auto, using(hosting::proofs::Answered::result_read, hosting::proofs::Answered::result_unread, hosting::proofs::Answered::some_number), unfolding(engine::specs::Values::value_of))]

ghost use Rattle.std.specs.Prelude.{[]};
ghost use Rattle.refusals.specs.Refusals.{refusal_in, packed_in};
ghost use Rattle.hosting.specs.Calls.{plain, packed, Done};
ghost use Rattle.hosting.specs.HostCalls.{comes_to, opens, propose, endorse, certify, accept, advance, commit};

use refusals::Refusal;
use terms::Member;
use terms::sheet::Rights;
use words::bodies::lengths::STATE;

/// Opens a member by its number, a sheet of 40 words and the rights of callers, one word. Accepted: the state's 39 words are written fresh, and the used part of the table, 272 words for each round up to the ceiling and for row 0, is cleared. Answers 0, or the number of the first check that refuses: 1 for words that cannot be read, 4, 2, 3, 1. docs/RULES.md, "Open" and "The sheet".
#[unsafe(no_mangle)]
pub extern "C" fn forgelilac_open(
    state: &mut [u32],
    table: &mut [u32],
    own: u32,
    sheet: &[u32],
    rights: u32,
) -> u32
    ensures { Done plain (comes_to state.old table.old (opens own sheet.now rights)) result
        state.new table.new [] }
{
    hosting::plain(open(state, table, own, sheet, rights))
}

// The call, told as a result.
fn open(
    state: &mut [u32],
    table: &mut [u32],
    own: u32,
    sheet: &[u32],
    rights: u32,
) -> Result<(), Refusal>
    ensures { Done plain (comes_to state.old table.old (opens own sheet.now rights))
        (refusal_in result) state.new table.new [] }
{
    if state.len() < STATE {
        return Err(Refusal::Malformed);
    }
    let Some(written) = words::sheets::sheet(sheet, Rights(rights)) else {
        return Err(Refusal::Malformed);
    };
    let mut s = open::closed();
    open::open(&mut s, table, Member(own), written)?;
    words::states::put_state(state, &s);
    Ok(())
}

/// Proposes a body of 14 words for the member's own place of the present round. Accepted: the proposal is kept in the state's words; the table is only read. Answers 0, or the number that refuses: 1, 6, 7, 10, 8, 9, 11, 12. docs/RULES.md, "Propose".
#[unsafe(no_mangle)]
pub extern "C" fn forgelilac_propose(state: &mut [u32], table: &[u32], body: &[u32]) -> u32
    ensures { Done plain (comes_to state.old table.now (propose body.now)) result
        state.new table.now [] }
{
    hosting::plain(propose(state, table, body))
}

// The call, told as a result.
fn propose(state: &mut [u32], table: &[u32], body: &[u32]) -> Result<(), Refusal>
    ensures { Done plain (comes_to state.old table.now (propose body.now)) (refusal_in result)
        state.new table.now [] }
{
    let Some(mut s) = words::states::state(state) else {
        return Err(Refusal::Malformed);
    };
    let Some(b) = words::bodies::body(body) else {
        return Err(Refusal::Malformed);
    };
    propose::propose(&mut s, table, b)?;
    words::states::put_state(state, &s);
    Ok(())
}

/// Endorses a proposal of another member, 16 words. Accepted: its place is marked endorsed in the table; the state is only read. Answers 0, or the number that refuses: 1, 4, 5, 6, 7, 14, 10, 8, 11, 12. docs/RULES.md, "Endorse".
#[unsafe(no_mangle)]
pub extern "C" fn forgelilac_endorse(state: &[u32], table: &mut [u32], proposal: &[u32]) -> u32
    ensures { Done plain (comes_to state.now table.old (endorse proposal.now)) result
        state.now table.new [] }
{
    hosting::plain(endorse(state, table, proposal))
}

// The call, told as a result.
fn endorse(state: &[u32], table: &mut [u32], proposal: &[u32]) -> Result<(), Refusal>
    ensures { Done plain (comes_to state.now table.old (endorse proposal.now)) (refusal_in result)
        state.now table.new [] }
{
    let s = words::states::state(state).ok_or(Refusal::Malformed)?;
    let p = words::proposals::proposal(proposal).ok_or(Refusal::Malformed)?;
    endorse::endorse(&s, table, p)
}

/// Makes a certificate of the member's own proposal with these endorsers, a set of at most 16 bits without the member itself. Accepted: it is held in the table; the state is only read. Answers 0, or the number that refuses: 1, 15, 10, 14, 8, 9, 13. docs/RULES.md, "Certify".
#[unsafe(no_mangle)]
pub extern "C" fn forgelilac_certify(state: &[u32], table: &mut [u32], endorsers: u32) -> u32
    ensures { Done plain (comes_to state.now table.old (certify endorsers)) result
        state.now table.new [] }
{
    hosting::plain(certify(state, table, endorsers))
}

// The call, told as a result.
fn certify(state: &[u32], table: &mut [u32], endorsers: u32) -> Result<(), Refusal>
    ensures { Done plain (comes_to state.now table.old (certify endorsers)) (refusal_in result)
        state.now table.new [] }
{
    let s = words::states::state(state).ok_or(Refusal::Malformed)?;
    let Ok(endorsers) = u16::try_from(endorsers) else {
        return Err(Refusal::Malformed);
    };
    certify::certify(&s, table, endorsers)
}

/// Takes a certificate of 17 words. Accepted: it is held in the table with its endorsers, and its endorsed mark cleared; the state is only read. Answers 0, or the number that refuses: 1, 4, 5, 6, 7, 14, 16, 17, 8, 9, 13, 11. docs/RULES.md, "Accept".
#[unsafe(no_mangle)]
pub extern "C" fn forgelilac_accept(state: &[u32], table: &mut [u32], certificate: &[u32]) -> u32
    ensures { Done plain (comes_to state.now table.old (accept certificate.now)) result
        state.now table.new [] }
{
    hosting::plain(accept(state, table, certificate))
}

// The call, told as a result.
fn accept(state: &[u32], table: &mut [u32], certificate: &[u32]) -> Result<(), Refusal>
    ensures { Done plain (comes_to state.now table.old (accept certificate.now)) (refusal_in result)
        state.now table.new [] }
{
    let s = words::states::state(state).ok_or(Refusal::Malformed)?;
    let c = words::proposals::certificate(certificate).ok_or(Refusal::Malformed)?;
    accept::accept(&s, table, c)
}

/// Goes on to the next round, where the authors of the certificates that are held in the present round form a quorum. Accepted: the proposal is dropped from the state's words; the table is only read. Answers 0, or the number that refuses: 1, 18, 8, 28. docs/RULES.md, "Advance".
#[unsafe(no_mangle)]
pub extern "C" fn forgelilac_advance(state: &mut [u32], table: &[u32]) -> u32
    ensures { Done plain (comes_to state.old table.now advance) result state.new table.now [] }
{
    hosting::plain(advance(state, table))
}

// The call, told as a result.
fn advance(state: &mut [u32], table: &[u32]) -> Result<(), Refusal>
    ensures { Done plain (comes_to state.old table.now advance) (refusal_in result)
        state.new table.now [] }
{
    let Some(mut s) = words::states::state(state) else {
        return Err(Refusal::Malformed);
    };
    advance::advance(&mut s, table)?;
    words::states::put_state(state, &s);
    Ok(())
}

/// Makes blocks in the table. The low half of the answer is how many were added, the high half the number that refuses, 0 for none: 1, 19, 20, 8, 21, 22. docs/RULES.md, "Commit".
#[unsafe(no_mangle)]
pub extern "C" fn forgelilac_commit(state: &mut [u32], table: &mut [u32]) -> u64
    ensures { Done packed (comes_to state.old table.old commit) result state.new table.new [] }
{
    hosting::packed(commit(state, table))
}

// The call, told as a result.
fn commit(state: &mut [u32], table: &mut [u32]) -> Result<u32, Refusal>
    ensures { Done packed (comes_to state.old table.old commit) (packed_in result)
        state.new table.new [] }
{
    let Some(mut s) = words::states::state(state) else {
        return Err(Refusal::Malformed);
    };
    let added = commit::commit(&mut s, table)?;
    words::states::put_state(state, &s);
    Ok(added)
}
