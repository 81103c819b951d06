//! The calls of a host that owns its words: what the public calls answer and leave, without a look at all that is held.
//!
//! Each has the parameters of the public call and the kept committees behind the table. It asks that state, table and kept committees are as the last of a member's calls left them, and leaves them so. docs/HOSTS.md.

ghost use Rattle.std.specs.Prelude.{◌≡◌, ◌≢◌, ◌==◌, ◌≤◌, []};
ghost use Rattle.hosting.specs.Calls.{plain, packed, Done};
ghost use Rattle.hosting.specs.HostCalls.{comes_to, propose, endorse, certify, accept, advance, commit};
ghost use Rattle.owned.specs.Known.{BeginsStill};
ghost use Rattle.owned.specs.Owned.{Owned};
ghost use Rattle.owned.specs.Testing.{Tells};
ghost use Rattle.owned.specs.Resuming.{Resumable, Filled};

use owned::{calls, resuming};

/// Propose, of a host that owns its words: `forgelilac_propose`, with the kept committees.
#[unsafe(no_mangle)]
pub extern "C" fn forgelilac_owned_propose(
    state: &mut [u32],
    table: &[u32],
    kept: &[u64],
    body: &[u32],
) -> u32
    requires { Owned state.old table.now kept.now }
    ensures done { Done plain (comes_to state.old table.now (propose body.now)) result
        state.new table.now [] }
    ensures owned { Owned state.new table.now kept.now }
{
    hosting::plain(calls::propose(state, table, kept, body))
}

/// Endorse, of a host that owns its words: `forgelilac_endorse`, with the kept committees.
#[unsafe(no_mangle)]
pub extern "C" fn forgelilac_owned_endorse(
    state: &[u32],
    table: &mut [u32],
    kept: &[u64],
    proposal: &[u32],
) -> u32
    requires { Owned state.now table.old kept.now }
    ensures done { Done plain (comes_to state.now table.old (endorse proposal.now)) result
        state.now table.new [] }
    ensures owned { Owned state.now table.new kept.now }
{
    hosting::plain(calls::endorse(state, table, kept, proposal))
}

/// Certify, of a host that owns its words: `forgelilac_certify`, with the kept committees.
#[unsafe(no_mangle)]
pub extern "C" fn forgelilac_owned_certify(
    state: &[u32],
    table: &mut [u32],
    kept: &[u64],
    endorsers: u32,
) -> u32
    requires { Owned state.now table.old kept.now }
    ensures done { Done plain (comes_to state.now table.old (certify endorsers)) result
        state.now table.new [] }
    ensures owned { Owned state.now table.new kept.now }
{
    hosting::plain(calls::certify(state, table, kept, endorsers))
}

/// Accept, of a host that owns its words: `forgelilac_accept`, with the kept committees.
#[unsafe(no_mangle)]
pub extern "C" fn forgelilac_owned_accept(
    state: &[u32],
    table: &mut [u32],
    kept: &[u64],
    certificate: &[u32],
) -> u32
    requires { Owned state.now table.old kept.now }
    ensures done { Done plain (comes_to state.now table.old (accept certificate.now)) result
        state.now table.new [] }
    ensures owned { Owned state.now table.new kept.now }
{
    hosting::plain(calls::accept(state, table, kept, certificate))
}

/// Advance, of a host that owns its words: `forgelilac_advance`, with the kept committees.
#[unsafe(no_mangle)]
pub extern "C" fn forgelilac_owned_advance(state: &mut [u32], table: &[u32], kept: &[u64]) -> u32
    requires { Owned state.old table.now kept.now }
    ensures done { Done plain (comes_to state.old table.now advance) result state.new table.now [] }
    ensures owned { Owned state.new table.now kept.now }
{
    hosting::plain(calls::advance(state, table, kept))
}

/// Commit, of a host that owns its words: `forgelilac_commit`, with the kept committees, which are renewed by the blocks that it makes.
#[unsafe(no_mangle)]
pub extern "C" fn forgelilac_owned_commit(
    state: &mut [u32],
    table: &mut [u32],
    kept: &mut [u64],
) -> u64
    requires { Owned state.old table.old kept.old }
    ensures done { Done packed (comes_to state.old table.old commit) result state.new table.new [] }
    ensures owned { Owned state.new table.new kept.new }
    ensures begins { BeginsStill kept.old kept.new }
    ensures same { (comes_to state.old table.old commit).refusal ≢ 0 → kept.new ≡ kept.old }
{
    hosting::packed(calls::commit(state, table, kept))
}

/// Tests the words of a state with its table, and fills the kept committees: 0 where the words are owned from here on, else 1, and then `kept` is as it was. 0 if and only if the words can be read, the state is well formed, each held certificate and the proposal name only held ones and one in a block only ones in blocks, and `kept` has room for the committees of all rounds up to the ceiling: 17 words and 16 for each round.
#[unsafe(no_mangle)]
pub extern "C" fn forgelilac_owned_resume(state: &[u32], table: &[u32], kept: &mut [u64]) -> u32
    ensures answer { (result ≤ 1) × Tells (result == 0) (Resumable state.now table.now kept.old) }
    ensures owned { result ≡ 0 → Owned state.now table.now kept.new }
    ensures kept { Filled state.now table.now kept.old (result == 0) kept.new }
{
    if resuming::resume(state, table, kept) {
        0
    } else {
        1
    }
}
