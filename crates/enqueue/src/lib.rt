//! Enqueue: a transaction is added to a guest's queue.
//!
//! The last of that queue, and nothing else of the table changes (specs/Enqueue). docs/RULES.md, "Guests' queues".
#![tactic(auto)]

ghost use Rattle.std.specs.Prelude.{◌≡◌, true, OnOk};
ghost use Rattle.base.specs.Checks.{refusal};
ghost use Rattle.store.specs.Table.{Row};
ghost use Rattle.queues.specs.Words.{Place, waiting_count};
ghost use Rattle.refusals.specs.Refusals.{refusal_in};
ghost use Rattle.state.specs.WellFormed.{well_formed};
ghost use Rattle.enqueue.specs.Enqueue.{enqueueing, enqueue_refusal, enqueue_table};

use queues::drawing;
use refusals::Refusal;
use state::State;
use terms::Transaction;

// The checks of a well-formed state: 26, 6, 27.
#[tactic(auto, using(crate::proofs::PassedLaws::as_counted), unfolding(base::specs::Checks::refusal))]
fn check(table: &[u32], guest: u32, transaction: Transaction) -> Result<(), Refusal>
    requires { Row table.now 0 }
    ensures refusal { refusal_in result ≡ refusal (enqueueing table.now guest transaction) }
    ensures place { OnOk result (Place table.now guest (waiting_count table.now guest)) }
{
    if 7 < guest {
        return Err(Refusal::GuestRange);
    }
    if !terms::in_range(transaction) {
        return Err(Refusal::TransactionsRange);
    }
    if queues::PLACES <= queues::waiting_count(table, guest) {
        return Err(Refusal::QueueFull);
    }
    Ok(())
}

/// The call, where the state is well formed.
#[tactic(auto, unfolding(base::specs::Checks::refusal, state::specs::Answers::if_accepted, crate::specs::Enqueue::enqueue_refusal, crate::specs::Enqueue::enqueue_table))]
pub fn enqueue_formed(
    state: &State,
    table: &mut [u32],
    guest: u32,
    transaction: Transaction,
) -> Result<(), Refusal>
    requires { well_formed state.now table.old ≡ true }
    ensures refusal { refusal_in result ≡ enqueue_refusal state.now table.old guest transaction }
    ensures table { table.new ≡ enqueue_table state.now table.old guest transaction }
{
    check(table, guest, transaction)?;
    drawing::add(table, guest, transaction);
    Ok(())
}

/// Adds a transaction to a guest's queue.
#[tactic(auto, unfolding(base::specs::Checks::refusal, state::specs::Answers::if_accepted, crate::specs::Enqueue::enqueue_refusal, crate::specs::Enqueue::enqueue_table))]
pub fn enqueue(
    state: &State,
    table: &mut [u32],
    guest: u32,
    transaction: Transaction,
) -> Result<(), Refusal>
    ensures refusal { refusal_in result ≡ enqueue_refusal state.now table.old guest transaction }
    ensures table { table.new ≡ enqueue_table state.now table.old guest transaction }
{
    if !state::well_formed(state, table) {
        return Err(Refusal::Malformed);
    }
    enqueue_formed(state, table, guest, transaction)
}
