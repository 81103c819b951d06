//! What a host that owns its words has listed: the preview of a commit and the certificates that it hangs on, with no look at all that is held, and what blocks in a row hold.
#![tactic(auto, using(hosting::proofs::Answered::result_unread))]

ghost use Rattle.std.specs.Prelude.{length};
ghost use Rattle.engine.specs.Calls.{preview, critical, blocks};
ghost use Rattle.refusals.specs.Refusals.{packed_in};
ghost use Rattle.hosting.specs.Calls.{packed, Done};
ghost use Rattle.hosting.specs.HostCalls.{comes_to, aside};
ghost use Rattle.owned.specs.Owned.{Owned};

use crate::{known, pivots, previewing};
use refusals::Refusal;

/// What a commit would do: the certificates of each block that it would add, three words each, into `list`.
pub fn preview(state: &[u32], table: &[u32], kept: &[u64], list: &mut [u32]) -> Result<u32, Refusal>
    requires { Owned state.now table.now kept.now }
    ensures { Done packed
        (comes_to state.now table.now (aside (preview (length list.old)) list.old))
        (packed_in result) state.now table.now list.new }
{
    let Some(s) = words::states::state(state) else {
        return Err(Refusal::Malformed);
    };
    previewing::preview_kept(&s, table, kept, list)
}

/// The certificates whose absence alone would turn a commit into a refusal, two words each, into `list`. The table is lent for writing, and is afterwards as it was.
pub fn critical(
    state: &[u32],
    table: &mut [u32],
    kept: &[u64],
    list: &mut [u32],
) -> Result<u32, Refusal>
    requires { Owned state.now table.old kept.now }
    ensures done { Done packed
        (comes_to state.now table.old (aside (critical (length list.old)) list.old))
        (packed_in result) state.now table.new list.new }
    ensures owned { Owned state.now table.new kept.now }
{
    let Some(s) = words::states::state(state) else {
        return Err(Refusal::Malformed);
    };
    pivots::critical_kept(&s, table, kept, list)
}

/// What `number` blocks after the first `known` hold, eighteen words for each certificate, into `list`. Whom a block's rows start with is told by the kept committees; no other rows are looked at than those between which the block's certificates lie.
pub fn block_rows(
    state: &[u32],
    table: &[u32],
    kept: &[u64],
    known: u32,
    number: u32,
    list: &mut [u32],
) -> Result<u32, Refusal>
    requires { Owned state.now table.now kept.now }
    ensures { Done packed
        (comes_to state.now table.now (aside (blocks known number (length list.old)) list.old))
        (packed_in result) state.now table.now list.new }
{
    let Some(s) = words::states::state(state) else {
        return Err(Refusal::Malformed);
    };
    spans::blocks_together(&known::view(&s, table, kept), known, number, list)
}
