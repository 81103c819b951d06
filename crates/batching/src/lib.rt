//! A batch from its checks to its answers.
//!
//! A row of certificate records is checked as a whole, and each record offered to accept in the order of the turns; answers and table are those of `batch` (specs/Batched, specs/Claims). docs/RULES.md, "Batches".
#![tactic(auto)]

pub mod ordering;
pub mod rows;
pub mod theorems;

ghost use Rattle.std.specs.Prelude.{◌≡◌, true, ◌<◌, ◌≤◌, length, OnOk};
ghost use Rattle.refusals.specs.Refusals.{refusal_in};
ghost use Rattle.state.specs.States.{own_body};
ghost use Rattle.state.specs.WellFormed.{well_formed};
ghost use Rattle.hosting.specs.Calls.{plain, Done};
ghost use Rattle.batch.specs.Batch.{batch_refusal};
ghost use Rattle.batching.specs.Rows.{certificate_of};
ghost use Rattle.batching.specs.TakenTurns.{Ready, number_of, table_of, AllTaken};
ghost use Rattle.batching.specs.Batched.{batch_result};

use crate::rows::CertificateRecord;
use accept::admission;
use chain_committees::cache;
use refusals::Refusal;
use state::State;

// The words of a cache with room for eight rounds.
const EIGHT_ROUNDS: usize = cache::ROUNDS + 8 * cache::COMMITTEE;

// The checks of a batch in their order: the first that fails refuses it.
#[tactic(auto, unfolding(base::specs::Checks::refusal, batch::specs::Batch::batch_refusal))]
fn check(state: &State, table: &[u32], count: usize, room: usize) -> Result<(), Refusal>
    ensures refusal { refusal_in result ≡ batch_refusal state.now table.now count room }
    ensures formed { OnOk result (well_formed state.now table.now ≡ true) }
    ensures fits { OnOk result ((count ≤ 64) × (count ≤ room)) }
{
    if !state::well_formed(state, table) {
        return Err(Refusal::Malformed);
    }
    if 64 < count || room < count {
        return Err(Refusal::LengthRange);
    }
    Ok(())
}

// One turn: a record is offered to accept. Gives its answer, 1 to words that cannot be read.
#[tactic(auto, unfolding(crate::specs::Rows::certificate_of))]
fn offer(state: &State, table: &mut [u32], cache: &mut [u64], entry: CertificateRecord) -> u32
    requires { Ready state.now table.old cache.old }
    ensures answer { result ≡ number_of state.now table.old (certificate_of entry) }
    ensures table { table.new ≡ table_of state.now table.old (certificate_of entry) }
    ensures ready { Ready state.now table.new cache.new }
{
    let Some(certificate) = words::proposals::certificate(&rows::words_of(entry)) else {
        return Refusal::Malformed.number();
    };
    admission::cache_committees(true, state, table, &certificate, cache);
    hosting::plain(accept::accept_cached(true, cache, state, table, certificate))
}

// All turns in their order, over the committees of up to eight rounds: each record is offered, and its answer put at its place.
fn offer_all(state: &State, table: &mut [u32], row: &[CertificateRecord], answers: &mut [u32])
    requires formed { well_formed state.now table.old ≡ true }
    requires set_in_range { (own_body state.now).previous < 65536 }
    requires few { length row.now ≤ 64 }
    requires room { length row.now ≤ length answers.old }
    ensures { AllTaken state.now table.old row.now answers.old table.new answers.new }
{
    let mut cache = [cache::NO_ROUND; EIGHT_ROUNDS];
    let order = ordering::in_order(row);
    for &place in &order[..row.len()] {
        answers[place] = offer(state, table, &mut cache, row[place]);
    }
}

/// Takes a row of up to 64 certificates: they are tried by rising round, then author, then place, and the answer that accept gives at its turn is put at each one's place in `answers`. Refused, in this order: 1 where the state's words mean none or the state is not well formed, 25 for more than 64 certificates or too little room; then nothing is tried. docs/RULES.md, "Batches".
#[tactic(auto, using(crate::proofs::DoneLaws::done_unread, crate::proofs::DoneLaws::done_refused))]
pub fn batch(
    state: &[u32],
    table: &mut [u32],
    row: &[CertificateRecord],
    answers: &mut [u32],
) -> Result<(), Refusal>
    ensures { Done plain (batch_result state.now table.old row.now answers.old)
        (refusal_in result) state.now table.new answers.new }
{
    let s = words::states::state(state).ok_or(Refusal::Malformed)?;
    check(&s, table, row.len(), answers.len())?;
    offer_all(&s, table, row, answers);
    Ok(())
}
