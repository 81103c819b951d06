//! The calls of guests, of a host that owns its words: the caller's right, and then the owner's call.
#![tactic(auto, using(hosting::proofs::Answered::guest_refused, hosting::proofs::Answered::guest_allowed, hosting::proofs::Answered::some_number))]

ghost use Rattle.std.specs.Prelude.{◌≡◌, ◌≢◌, []};
ghost use Rattle.hosting.specs.Calls.{plain, packed, Done};
ghost use Rattle.hosting.specs.GuestForms.{comes_to_guest, propose, draw, enqueue, endorse, certify, accept, advance, commit};
ghost use Rattle.owned.specs.Known.{BeginsStill};
ghost use Rattle.owned.specs.Owned.{Owned};

use crate::{owned_calls, owned_queue_calls};
use hosting::guesting;
use terms::rights::Right;

/// `forgelilac_guest_propose`, of a host that owns its words, with the kept committees.
#[unsafe(no_mangle)]
pub extern "C" fn forgelilac_owned_guest_propose(
    caller: u32,
    state: &mut [u32],
    table: &[u32],
    kept: &[u64],
    body: &[u32],
) -> u32
    requires { Owned state.old table.now kept.now }
    ensures done { Done plain (comes_to_guest state.old table.now caller (propose body.now)) result
        state.new table.now [] }
    ensures owned { Owned state.new table.now kept.now }
{
    match guesting::check(state, Right::Propose, caller) {
        Ok(()) => owned_calls::forgelilac_owned_propose(state, table, kept, body),
        Err(refusal) => hosting::plain(Err(refusal)),
    }
}

/// `forgelilac_guest_draw`, of a host that owns its words, with the kept committees.
#[unsafe(no_mangle)]
pub extern "C" fn forgelilac_owned_guest_draw(
    caller: u32,
    state: &mut [u32],
    table: &mut [u32],
    kept: &[u64],
    previous: u32,
) -> u32
    requires { Owned state.old table.old kept.now }
    ensures done { Done plain (comes_to_guest state.old table.old caller (draw previous)) result
        state.new table.new [] }
    ensures owned { Owned state.new table.new kept.now }
{
    match guesting::check(state, Right::Propose, caller) {
        Ok(()) => owned_queue_calls::forgelilac_owned_draw(state, table, kept, previous),
        Err(refusal) => hosting::plain(Err(refusal)),
    }
}

/// `forgelilac_guest_enqueue`, of a host that owns its words, with the kept committees.
#[unsafe(no_mangle)]
pub extern "C" fn forgelilac_owned_guest_enqueue(
    caller: u32,
    state: &[u32],
    table: &mut [u32],
    kept: &[u64],
    transaction: &[u32],
) -> u32
    requires { Owned state.now table.old kept.now }
    ensures done { Done plain (comes_to_guest state.now table.old caller (enqueue transaction.now))
        result state.now table.new [] }
    ensures owned { Owned state.now table.new kept.now }
{
    match guesting::check(state, Right::Propose, caller) {
        Ok(()) => owned_queue_calls::forgelilac_owned_enqueue(
            state,
            table,
            kept,
            caller,
            transaction,
        ),
        Err(refusal) => hosting::plain(Err(refusal)),
    }
}

/// `forgelilac_guest_endorse`, of a host that owns its words, with the kept committees.
#[unsafe(no_mangle)]
pub extern "C" fn forgelilac_owned_guest_endorse(
    caller: u32,
    state: &[u32],
    table: &mut [u32],
    kept: &[u64],
    proposal: &[u32],
) -> u32
    requires { Owned state.now table.old kept.now }
    ensures done { Done plain (comes_to_guest state.now table.old caller (endorse proposal.now))
        result state.now table.new [] }
    ensures owned { Owned state.now table.new kept.now }
{
    match guesting::check(state, Right::Sign, caller) {
        Ok(()) => owned_calls::forgelilac_owned_endorse(state, table, kept, proposal),
        Err(refusal) => hosting::plain(Err(refusal)),
    }
}

/// `forgelilac_guest_certify`, of a host that owns its words, with the kept committees.
#[unsafe(no_mangle)]
pub extern "C" fn forgelilac_owned_guest_certify(
    caller: u32,
    state: &[u32],
    table: &mut [u32],
    kept: &[u64],
    endorsers: u32,
) -> u32
    requires { Owned state.now table.old kept.now }
    ensures done { Done plain (comes_to_guest state.now table.old caller (certify endorsers)) result
        state.now table.new [] }
    ensures owned { Owned state.now table.new kept.now }
{
    match guesting::check(state, Right::Sign, caller) {
        Ok(()) => owned_calls::forgelilac_owned_certify(state, table, kept, endorsers),
        Err(refusal) => hosting::plain(Err(refusal)),
    }
}

/// `forgelilac_guest_accept`, of a host that owns its words, with the kept committees.
#[unsafe(no_mangle)]
pub extern "C" fn forgelilac_owned_guest_accept(
    caller: u32,
    state: &[u32],
    table: &mut [u32],
    kept: &[u64],
    certificate: &[u32],
) -> u32
    requires { Owned state.now table.old kept.now }
    ensures done { Done plain (comes_to_guest state.now table.old caller (accept certificate.now))
        result state.now table.new [] }
    ensures owned { Owned state.now table.new kept.now }
{
    match guesting::check(state, Right::Sign, caller) {
        Ok(()) => owned_calls::forgelilac_owned_accept(state, table, kept, certificate),
        Err(refusal) => hosting::plain(Err(refusal)),
    }
}

/// `forgelilac_guest_advance`, of a host that owns its words, with the kept committees.
#[unsafe(no_mangle)]
pub extern "C" fn forgelilac_owned_guest_advance(
    caller: u32,
    state: &mut [u32],
    table: &[u32],
    kept: &[u64],
) -> u32
    requires { Owned state.old table.now kept.now }
    ensures done { Done plain (comes_to_guest state.old table.now caller advance) result
        state.new table.now [] }
    ensures owned { Owned state.new table.now kept.now }
{
    match guesting::check(state, Right::Drive, caller) {
        Ok(()) => owned_calls::forgelilac_owned_advance(state, table, kept),
        Err(refusal) => hosting::plain(Err(refusal)),
    }
}

/// `forgelilac_guest_commit`, of a host that owns its words, with the kept committees.
#[unsafe(no_mangle)]
pub extern "C" fn forgelilac_owned_guest_commit(
    caller: u32,
    state: &mut [u32],
    table: &mut [u32],
    kept: &mut [u64],
) -> u64
    requires { Owned state.old table.old kept.old }
    ensures done { Done packed (comes_to_guest state.old table.old caller commit) result
        state.new table.new [] }
    ensures owned { Owned state.new table.new kept.new }
    ensures begins { BeginsStill kept.old kept.new }
    ensures same { (comes_to_guest state.old table.old caller commit).refusal ≢ 0
        → kept.new ≡ kept.old }
{
    match guesting::check(state, Right::Drive, caller) {
        Ok(()) => owned_calls::forgelilac_owned_commit(state, table, kept),
        Err(refusal) => hosting::packed(Err(refusal)),
    }
}
