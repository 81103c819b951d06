//! The batch of a host that owns its words, its own or a guest's: what the public batch answers and leaves, without a look at all that is held (docs/RULES.md, "Batches").
ghost use Rattle.engine.specs.Guests.{batch_needs};
ghost use Rattle.hosting.specs.Calls.{plain, Done};
ghost use Rattle.hosting.specs.Guested.{as_guest};
ghost use Rattle.batching.specs.Batched.{batch_result};
ghost use Rattle.owned.specs.Owned.{Owned};

use batching::rows::CertificateRecord;
use hosting::guesting;
use terms::rights::Right;

/// Takes a row of certificates, of a host that owns its words: `forgelilac_batch`, with the kept committees.
#[unsafe(no_mangle)]
pub extern "C" fn forgelilac_owned_batch(
    state: &[u32],
    table: &mut [u32],
    kept: &[u64],
    row: &[CertificateRecord],
    answers: &mut [u32],
) -> u32
    requires { Owned state.now table.old kept.now }
    ensures done { Done plain (batch_result state.now table.old row.now answers.old) result
        state.now table.new answers.new }
    ensures owned { Owned state.now table.new kept.now }
{
    hosting::plain(owned::batches::batch(state, table, kept, row, answers))
}

/// A guest has a row of certificates tried, of a host that owns its words: `forgelilac_guest_batch`, with the kept committees. Right: sign.
#[unsafe(no_mangle)]
#[tactic(auto, using(hosting::proofs::Answered::guest_refused, hosting::proofs::Answered::guest_allowed, hosting::proofs::Answered::some_number))]
pub extern "C" fn forgelilac_owned_guest_batch(
    caller: u32,
    state: &[u32],
    table: &mut [u32],
    kept: &[u64],
    row: &[CertificateRecord],
    answers: &mut [u32],
) -> u32
    requires { Owned state.now table.old kept.now }
    ensures done { Done plain (as_guest state.now table.old answers.old caller batch_needs
        (batch_result state.now table.old row.now answers.old)) result state.now
        table.new answers.new }
    ensures owned { Owned state.now table.new kept.now }
{
    match guesting::check(state, Right::Sign, caller) {
        Ok(()) => forgelilac_owned_batch(state, table, kept, row, answers),
        Err(refusal) => hosting::plain(Err(refusal)),
    }
}
