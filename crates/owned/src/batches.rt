//! The batch of a host that owns its words: accept's owner's form over a row of certificates, in the order of their turns (docs/RULES.md, "Batches").

ghost use Rattle.std.specs.Prelude.{◌≡◌};
ghost use Rattle.refusals.specs.Refusals.{refusal_in};
ghost use Rattle.words.specs.States.{state_in};
ghost use Rattle.hosting.specs.Calls.{plain, Done};
ghost use Rattle.batching.specs.Batched.{batch_result};
ghost use Rattle.batching.specs.Rows.{certificate_of};
ghost use Rattle.batching.specs.TakenTurns.{number_of, table_of};
ghost use Rattle.owned.specs.Owned.{Owned};

use crate::calls;
use batching::ordering;
use batching::rows::{self, CertificateRecord};
use refusals::Refusal;

// One turn: a record is offered to accept. Gives its answer, 1 to words that cannot be read.
fn offer(state: &[u32], table: &mut [u32], kept: &[u64], entry: CertificateRecord) -> u32
    requires { Owned state.now table.old kept.now }
    ensures answer { result ≡ number_of (state_in state.now) table.old (certificate_of entry) }
    ensures table { table.new ≡ table_of (state_in state.now) table.old (certificate_of entry) }
    ensures owned { Owned state.now table.new kept.now }
{
    hosting::plain(calls::accept(state, table, kept, &rows::words_of(entry)))
}

/// Takes a row of up to 64 certificates: each is tried at its turn, and its answer put at its place in `answers`.
pub fn batch(
    state: &[u32],
    table: &mut [u32],
    kept: &[u64],
    row: &[CertificateRecord],
    answers: &mut [u32],
) -> Result<(), Refusal>
    requires { Owned state.now table.old kept.now }
    ensures done { Done plain (batch_result state.now table.old row.now answers.old)
        (refusal_in result) state.now table.new answers.new }
    ensures owned { Owned state.now table.new kept.now }
{
    if 64 < row.len() || answers.len() < row.len() {
        return Err(Refusal::LengthRange);
    }
    let order = ordering::in_order(row);
    for &place in &order[..row.len()] {
        answers[place] = offer(state, table, kept, row[place]);
    }
    Ok(())
}
