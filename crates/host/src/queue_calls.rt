//! The calls on guests' queues that a host makes: enqueue, draw.
#![tactic(auto, using(hosting::proofs::Answered::result_read, hosting::proofs::Answered::result_unread, hosting::proofs::Answered::some_number), unfolding(engine::specs::Values::value_of))]

ghost use Rattle.std.specs.Prelude.{[]};
ghost use Rattle.refusals.specs.Refusals.{refusal_in};
ghost use Rattle.hosting.specs.Calls.{plain, Done};
ghost use Rattle.hosting.specs.HostCalls.{comes_to, enqueue, draw};

use refusals::Refusal;

/// Adds a transaction of three words to the queue of a guest, 0 to 7, as its youngest. Only the table changes. Answers 0, or the number that refuses: 1, 26, 6, 27. docs/RULES.md, "Guests' queues".
#[unsafe(no_mangle)]
pub extern "C" fn forgelilac_enqueue(
    state: &[u32],
    table: &mut [u32],
    guest: u32,
    transaction: &[u32],
) -> u32
    ensures { Done plain (comes_to state.now table.old (enqueue guest transaction.now)) result
        state.now table.new [] }
{
    hosting::plain(enqueue(state, table, guest, transaction))
}

// The call, told as a result.
fn enqueue(state: &[u32], table: &mut [u32], guest: u32, transaction: &[u32]) -> Result<(), Refusal>
    ensures { Done plain (comes_to state.now table.old (enqueue guest transaction.now))
        (refusal_in result) state.now table.new [] }
{
    let s = words::states::state(state).ok_or(Refusal::Malformed)?;
    let x = words::bodies::transaction(transaction).ok_or(Refusal::Malformed)?;
    enqueue::enqueue(&s, table, guest, x)
}

/// Proposes what it draws from guests' queues, with a previous set of at most 16 bits. Accepted: the proposal is kept in the state's words, and what was drawn leaves its queues in the table. Answers 0, or the number that refuses: 1, 7, 10, 8, 9, 11, 12. docs/RULES.md, "Guests' queues".
#[unsafe(no_mangle)]
pub extern "C" fn forgelilac_draw(state: &mut [u32], table: &mut [u32], previous: u32) -> u32
    ensures { Done plain (comes_to state.old table.old (draw previous)) result
        state.new table.new [] }
{
    hosting::plain(draw(state, table, previous))
}

// The call, told as a result.
fn draw(state: &mut [u32], table: &mut [u32], previous: u32) -> Result<(), Refusal>
    ensures { Done plain (comes_to state.old table.old (draw previous)) (refusal_in result)
        state.new table.new [] }
{
    let Some(mut s) = words::states::state(state) else {
        return Err(Refusal::Malformed);
    };
    let Ok(previous) = u16::try_from(previous) else {
        return Err(Refusal::Malformed);
    };
    draw::draw(&mut s, table, previous)?;
    words::states::put_state(state, &s);
    Ok(())
}
