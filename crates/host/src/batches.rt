//! The batch that a host or a guest hands over: a row of certificates, each with the answer of accept at its turn (docs/RULES.md, "Batches").
ghost use Rattle.engine.specs.Guests.{batch_needs};
ghost use Rattle.hosting.specs.Calls.{plain, Done};
ghost use Rattle.hosting.specs.Guested.{as_guest};
ghost use Rattle.batching.specs.Batched.{batch_result};

use batching::rows::CertificateRecord;
use hosting::guesting;
use terms::rights::Right;

/// Takes a row of up to 64 certificates of 17 words each. They are tried by rising round, then author, then place; the answer that accept gives at its turn is put at each one's place in `answers`, which is as long as the row at least. The state is only read. Answers 0, or the number that refuses, and then nothing is tried: 1, 25. docs/RULES.md, "Batches".
#[unsafe(no_mangle)]
pub extern "C" fn forgelilac_batch(
    state: &[u32],
    table: &mut [u32],
    row: &[CertificateRecord],
    answers: &mut [u32],
) -> u32
    ensures { Done plain (batch_result state.now table.old row.now answers.old) result state.now
        table.new answers.new }
{
    hosting::plain(batching::batch(state, table, row, answers))
}

/// A guest has a row of certificates tried. It answers 26 for a caller above 7 and 29 for one without the right, and then nothing is tried and no word changes. Else it does and answers what `forgelilac_batch` does. Right: sign. docs/RULES.md, "Rights" and "Batches".
#[unsafe(no_mangle)]
#[tactic(auto, using(hosting::proofs::Answered::guest_refused, hosting::proofs::Answered::guest_allowed, hosting::proofs::Answered::some_number))]
pub extern "C" fn forgelilac_guest_batch(
    caller: u32,
    state: &[u32],
    table: &mut [u32],
    row: &[CertificateRecord],
    answers: &mut [u32],
) -> u32
    ensures { Done plain (as_guest state.now table.old answers.old caller batch_needs
        (batch_result state.now table.old row.now answers.old)) result state.now
        table.new answers.new }
{
    match guesting::check(state, Right::Sign, caller) {
        Ok(()) => forgelilac_batch(state, table, row, answers),
        Err(refusal) => hosting::plain(Err(refusal)),
    }
}
