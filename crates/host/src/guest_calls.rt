//! The calls of guests: the caller's right, and then the host's own call.
#![tactic(auto, using(hosting::proofs::Answered::guest_refused, hosting::proofs::Answered::guest_allowed, hosting::proofs::Answered::some_number))]

ghost use Rattle.std.specs.Prelude.{[]};
ghost use Rattle.hosting.specs.Calls.{plain, packed, Done};
ghost use Rattle.hosting.specs.GuestForms.{comes_to_guest, propose, draw, enqueue, endorse, certify, accept, advance, commit};

use hosting::guesting;
use terms::rights::Right;

/// A guest proposes a body of 14 words. It answers 26 for a caller above 7 and 29 for one without the right, and then no word changes. Else it does and answers what `forgelilac_propose` does. Right: propose. docs/RULES.md, "Rights".
#[unsafe(no_mangle)]
pub extern "C" fn forgelilac_guest_propose(
    caller: u32,
    state: &mut [u32],
    table: &[u32],
    body: &[u32],
) -> u32
    ensures { Done plain (comes_to_guest state.old table.now caller (propose body.now)) result
        state.new table.now [] }
{
    match guesting::check(state, Right::Propose, caller) {
        Ok(()) => crate::calls::forgelilac_propose(state, table, body),
        Err(refusal) => hosting::plain(Err(refusal)),
    }
}

/// A guest proposes what is drawn from guests' queues, with a previous set. It answers 26 for a caller above 7 and 29 for one without the right, and then no word changes. Else it does and answers what `forgelilac_draw` does. Right: propose. docs/RULES.md, "Rights".
#[unsafe(no_mangle)]
pub extern "C" fn forgelilac_guest_draw(
    caller: u32,
    state: &mut [u32],
    table: &mut [u32],
    previous: u32,
) -> u32
    ensures { Done plain (comes_to_guest state.old table.old caller (draw previous)) result
        state.new table.new [] }
{
    match guesting::check(state, Right::Propose, caller) {
        Ok(()) => crate::queue_calls::forgelilac_draw(state, table, previous),
        Err(refusal) => hosting::plain(Err(refusal)),
    }
}

/// A guest adds a transaction of three words to its own queue. It answers 26 for a caller above 7 and 29 for one without the right, and then no word changes. Else it does and answers what `forgelilac_enqueue` does. Right: propose. docs/RULES.md, "Rights".
#[unsafe(no_mangle)]
pub extern "C" fn forgelilac_guest_enqueue(
    caller: u32,
    state: &[u32],
    table: &mut [u32],
    transaction: &[u32],
) -> u32
    ensures { Done plain (comes_to_guest state.now table.old caller (enqueue transaction.now))
        result state.now table.new [] }
{
    match guesting::check(state, Right::Propose, caller) {
        Ok(()) => crate::queue_calls::forgelilac_enqueue(state, table, caller, transaction),
        Err(refusal) => hosting::plain(Err(refusal)),
    }
}

/// A guest endorses a proposal of 16 words. It answers 26 for a caller above 7 and 29 for one without the right, and then no word changes. Else it does and answers what `forgelilac_endorse` does. Right: sign. docs/RULES.md, "Rights".
#[unsafe(no_mangle)]
pub extern "C" fn forgelilac_guest_endorse(
    caller: u32,
    state: &[u32],
    table: &mut [u32],
    proposal: &[u32],
) -> u32
    ensures { Done plain (comes_to_guest state.now table.old caller (endorse proposal.now)) result
        state.now table.new [] }
{
    match guesting::check(state, Right::Sign, caller) {
        Ok(()) => crate::calls::forgelilac_endorse(state, table, proposal),
        Err(refusal) => hosting::plain(Err(refusal)),
    }
}

/// A guest certifies the proposal of the present round, with a set of endorsers. It answers 26 for a caller above 7 and 29 for one without the right, and then no word changes. Else it does and answers what `forgelilac_certify` does. Right: sign. docs/RULES.md, "Rights".
#[unsafe(no_mangle)]
pub extern "C" fn forgelilac_guest_certify(
    caller: u32,
    state: &[u32],
    table: &mut [u32],
    endorsers: u32,
) -> u32
    ensures { Done plain (comes_to_guest state.now table.old caller (certify endorsers)) result
        state.now table.new [] }
{
    match guesting::check(state, Right::Sign, caller) {
        Ok(()) => crate::calls::forgelilac_certify(state, table, endorsers),
        Err(refusal) => hosting::plain(Err(refusal)),
    }
}

/// A guest has a certificate of 17 words accepted. It answers 26 for a caller above 7 and 29 for one without the right, and then no word changes. Else it does and answers what `forgelilac_accept` does. Right: sign. docs/RULES.md, "Rights".
#[unsafe(no_mangle)]
pub extern "C" fn forgelilac_guest_accept(
    caller: u32,
    state: &[u32],
    table: &mut [u32],
    certificate: &[u32],
) -> u32
    ensures { Done plain (comes_to_guest state.now table.old caller (accept certificate.now)) result
        state.now table.new [] }
{
    match guesting::check(state, Right::Sign, caller) {
        Ok(()) => crate::calls::forgelilac_accept(state, table, certificate),
        Err(refusal) => hosting::plain(Err(refusal)),
    }
}

/// A guest has the member go on to the next round. It answers 26 for a caller above 7 and 29 for one without the right, and then no word changes. Else it does and answers what `forgelilac_advance` does. Right: drive. docs/RULES.md, "Rights".
#[unsafe(no_mangle)]
pub extern "C" fn forgelilac_guest_advance(caller: u32, state: &mut [u32], table: &[u32]) -> u32
    ensures { Done plain (comes_to_guest state.old table.now caller advance) result
        state.new table.now [] }
{
    match guesting::check(state, Right::Drive, caller) {
        Ok(()) => crate::calls::forgelilac_advance(state, table),
        Err(refusal) => hosting::plain(Err(refusal)),
    }
}

/// A guest has blocks made. It refuses with 26 a caller above 7 and with 29 one without the right, in the high half of the answer; then no word changes, and the low half is 0. Else it does and answers what `forgelilac_commit` does. Right: drive. docs/RULES.md, "Rights".
#[unsafe(no_mangle)]
pub extern "C" fn forgelilac_guest_commit(caller: u32, state: &mut [u32], table: &mut [u32]) -> u64
    ensures { Done packed (comes_to_guest state.old table.old caller commit) result
        state.new table.new [] }
{
    match guesting::check(state, Right::Drive, caller) {
        Ok(()) => crate::calls::forgelilac_commit(state, table),
        Err(refusal) => hosting::packed(Err(refusal)),
    }
}
