//! The calls on guests' queues of a host that owns its words: enqueue, draw.
#![tactic(auto, using(hosting::proofs::Answered::result_read, hosting::proofs::Answered::result_unread, hosting::proofs::Answered::some_number), unfolding(engine::specs::Values::value_of))]

ghost use Rattle.std.specs.Prelude.{◌≡◌, []};
ghost use Rattle.refusals.specs.Refusals.{refusal_in};
ghost use Rattle.hosting.specs.Calls.{plain, Done};
ghost use Rattle.hosting.specs.HostCalls.{comes_to, enqueue, draw};
ghost use Rattle.owned.specs.Owned.{Owned};

use crate::known;
use refusals::Refusal;

/// Enqueue, of a host that owns its words.
pub fn enqueue(
    state: &[u32],
    table: &mut [u32],
    kept: &[u64],
    guest: u32,
    transaction: &[u32],
) -> Result<(), Refusal>
    requires { Owned state.now table.old kept.now }
    ensures done { Done plain (comes_to state.now table.old (enqueue guest transaction.now))
        (refusal_in result) state.now table.new [] }
    ensures owned { Owned state.now table.new kept.now }
{
    let Some(s) = words::states::state(state) else {
        return Err(Refusal::Malformed);
    };
    let x = words::bodies::transaction(transaction).ok_or(Refusal::Malformed)?;
    enqueue::enqueue_formed(&s, table, guest, x)
}

/// Draw, of a host that owns its words.
pub fn draw(
    state: &mut [u32],
    table: &mut [u32],
    kept: &[u64],
    previous: u32,
) -> Result<(), Refusal>
    requires { Owned state.old table.old kept.now }
    ensures done { Done plain (comes_to state.old table.old (draw previous)) (refusal_in result)
        state.new table.new [] }
    ensures owned { Owned state.new table.new kept.now }
{
    let Some(mut s) = words::states::state(state) else {
        return Err(Refusal::Malformed);
    };
    let Ok(previous) = u16::try_from(previous) else {
        return Err(Refusal::Malformed);
    };
    let words = known::words(&s, table, kept);
    draw::draw_formed(&kept[..words], &mut s, table, previous)?;
    words::states::put_state(state, &s);
    Ok(())
}
