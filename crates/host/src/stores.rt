//! What a host stores and signs: a member's words as bytes, loaded again, and the bytes of a proposal, an endorsement and a certificate.

ghost use Rattle.std.specs.Prelude.{◌≡◌, length};
ghost use Rattle.storing.specs.Loading.{load_refusal, loaded_state, loaded_table};
ghost use Rattle.storing.specs.Refusals.{refusal_in};
ghost use Rattle.storing.specs.Signed.{proposal_message_refusal, certificate_message_refusal, proposal_message_over, certificate_message_over};
ghost use Rattle.storing.specs.Stored.{stored_length};
ghost use Rattle.storing.specs.Storing.{store_refusal, stored_over};
ghost use Rattle.storing.specs.declared.signed.TheConstants.{PROPOSAL_MARK, ENDORSEMENT_MARK, CERTIFICATE_MARK};

use storing::refusal::StoringRefusal;
use storing::signed::{ENDORSEMENT_MARK, PROPOSAL_MARK};
use storing::{loading, signed, stored};
use terms::Round;

// The number that refuses, 0 where it is done.
fn number(answer: Result<(), StoringRefusal>) -> u32
    ensures { result ≡ refusal_in answer }
{
    match answer {
        Ok(()) => 0,
        Err(refusal) => refusal.number(),
    }
}

/// Gives how many bytes a member of this ceiling is stored in. It refuses nothing. docs/TABLES.md, "The stored form".
#[unsafe(no_mangle)]
pub extern "C" fn forgelilac_stored_bytes(ceiling: u32) -> u64
    ensures { result ≡ stored_length ceiling }
{
    stored::stored_length(Round(ceiling)) as u64
}

/// Stores the state's words and the table's used words in the first bytes of `bytes`, as many as `forgelilac_stored_bytes` gives for the state's ceiling, under a number of the run; the other bytes stay. State and table are only read. Answers 0, or the number that refuses: 101, 102; then every byte stays. docs/TABLES.md, "The stored form".
#[unsafe(no_mangle)]
pub extern "C" fn forgelilac_store(state: &[u32], table: &[u32], run: u64, bytes: &mut [u8]) -> u32
    ensures refusal { result ≡ store_refusal state.now (length table.now) (length bytes.old) }
    ensures bytes { bytes.new ≡ stored_over run state.now table.now bytes.old }
{
    number(stored::store(state, table, run, bytes))
}

/// Loads what member `own` stored in the run of this number, all of its bytes and no more, into the first words of state and table; the other words stay. Answers 0, or the number that refuses: 105, 103, 104, 105, 106, 107, 101, 102; then every word stays. docs/TABLES.md, "The stored form".
#[unsafe(no_mangle)]
pub extern "C" fn forgelilac_load(
    bytes: &[u8],
    own: u32,
    run: u64,
    state: &mut [u32],
    table: &mut [u32],
) -> u32
    ensures refusal { result
        ≡ load_refusal bytes.now own run (length state.old) (length table.old) }
    ensures state { state.new ≡ loaded_state bytes.now own run state.old table.old }
    ensures table { table.new ≡ loaded_table bytes.now own run state.old table.old }
{
    number(loading::load(bytes, own, run, state, table))
}

/// Puts the 100 bytes that the author signs of a proposal, 16 words, in the run of this number by the settings in the state's words; the other bytes stay. State and proposal are only read. Answers 0, or the number that refuses: 101, 102; then every byte stays. docs/HOSTS.md, "What is signed, to the byte".
#[unsafe(no_mangle)]
pub extern "C" fn forgelilac_proposal_bytes(
    state: &[u32],
    run: u64,
    proposal: &[u32],
    bytes: &mut [u8],
) -> u32
    ensures refusal { result
        ≡ proposal_message_refusal state.now proposal.now (length bytes.old) }
    ensures bytes { bytes.new
        ≡ proposal_message_over PROPOSAL_MARK state.now run proposal.now bytes.old }
{
    number(signed::proposal_bytes(PROPOSAL_MARK, state, run, proposal, bytes))
}

/// Puts the 100 bytes that an endorser signs of a proposal, 16 words, as `forgelilac_proposal_bytes` does: they differ in the mark. Answers 0, or the number that refuses: 101, 102; then every byte stays. docs/HOSTS.md, "What is signed, to the byte".
#[unsafe(no_mangle)]
pub extern "C" fn forgelilac_endorsement_bytes(
    state: &[u32],
    run: u64,
    proposal: &[u32],
    bytes: &mut [u8],
) -> u32
    ensures refusal { result
        ≡ proposal_message_refusal state.now proposal.now (length bytes.old) }
    ensures bytes { bytes.new
        ≡ proposal_message_over ENDORSEMENT_MARK state.now run proposal.now bytes.old }
{
    number(signed::proposal_bytes(ENDORSEMENT_MARK, state, run, proposal, bytes))
}

/// Puts the 104 bytes that are signed of a whole certificate, 17 words, as `forgelilac_proposal_bytes` does: they have another mark, and the endorsers behind the proposal. Answers 0, or the number that refuses: 101, 102; then every byte stays. docs/HOSTS.md, "What is signed, to the byte".
#[unsafe(no_mangle)]
pub extern "C" fn forgelilac_certificate_bytes(
    state: &[u32],
    run: u64,
    certificate: &[u32],
    bytes: &mut [u8],
) -> u32
    ensures refusal { result
        ≡ certificate_message_refusal state.now certificate.now (length bytes.old) }
    ensures bytes { bytes.new
        ≡ certificate_message_over CERTIFICATE_MARK state.now run certificate.now bytes.old }
{
    number(signed::certificate_bytes(state, run, certificate, bytes))
}
