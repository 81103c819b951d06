//! To load a stored member.

ghost use Rattle.std.specs.Prelude.{◌≡◌, ◌+◌, ◌*◌, ◌%◌, ◌<◌, ◌≤◌, IfOk, OnOk, length};
ghost use Rattle.store.specs.Table.{used_length};
ghost use Rattle.words.specs.Lengths.{state_length};
ghost use Rattle.words.specs.States.{state_reads};
ghost use Rattle.storing.specs.Refusals.{refusal_in};
ghost use Rattle.storing.specs.Stored.{head_length, covered_length, stored_length};
ghost use Rattle.storing.specs.Loading.{ceiling_in, run_in, state_words_in, digest_fits, load_refusal, loaded_state, loaded_table};

use crate::bytes;
use crate::refusal::StoringRefusal;
use crate::stored::{
    FORMAT, HEAD, HEAD_FORMAT, HEAD_MARK, HEAD_RUN_HIGH, HEAD_RUN_LOW, MARK, covered_length,
    stored_length,
};
use store::places;
use terms::Round;
use words::bodies::lengths::STATE;
use words::places::{STATE_CEILING, STATE_OWN};

// The run's number.
fn run_in(bytes: &[u8]) -> u64
    requires { 4 * head_length ≤ length bytes.now }
    ensures { result ≡ run_in bytes.now }
{
    let low = bytes::word_at(bytes, HEAD_RUN_LOW) as u64;
    let high = bytes::word_at(bytes, HEAD_RUN_HIGH) as u64;
    low + high * 4294967296
}

// Can the state's words be read?
fn state_reads(bytes: &[u8]) -> bool
    requires { 4 * (head_length + state_length) ≤ length bytes.now }
    ensures { result ≡ state_reads (state_words_in bytes.now) }
{
    let mut stored = [0u32; STATE];
    bytes::fill(&mut stored, bytes, HEAD);
    words::states::state(&stored).is_some()
}

// Is the digest that of the bytes before it?
#[tactic(auto, unfolding(crate::specs::Loading::digest_fits))]
fn digest_fits(bytes: &[u8], covered: usize) -> bool
    requires within { covered ≤ length bytes.now }
    requires end { covered % 64 < 56 }
    ensures { result ≡ digest_fits bytes.now covered }
{
    let digest = digests::sha256(&bytes[..covered]);
    digest.as_slice() == &bytes[covered..]
}

// The checks, in the order of `load_checks` (specs/Loading): 105 shorter than any stored form; 103 another mark; 104 another format; 105 not as long as its ceiling says; 105 another digest; 106 another member; 107 another run; 101 a state that cannot be read; 102 no room.
#[tactic(auto, using(crate::proofs::StoredLaws::covered_end), unfolding(base::specs::Checks::refusal, crate::specs::Loading::load_refusal))]
fn check(
    bytes: &[u8],
    own: u32,
    run: u64,
    state: usize,
    table: usize,
) -> Result<Round, StoringRefusal>
    ensures refusal { refusal_in result ≡ load_refusal bytes.now own run state table }
    ensures value { IfOk result (λ c. c ≡ ceiling_in bytes.now) }
    ensures bytes { IfOk result (λ c. stored_length c ≡ length bytes.now) }
    ensures state { OnOk result (state_length ≤ state) }
    ensures table { IfOk result (λ c. used_length c ≤ table) }
{
    if bytes.len() < stored_length(Round(0)) {
        return Err(StoringRefusal::Torn);
    }
    if bytes::word_at(bytes, HEAD_MARK) != MARK {
        return Err(StoringRefusal::OtherMark);
    }
    if bytes::word_at(bytes, HEAD_FORMAT) != FORMAT {
        return Err(StoringRefusal::OtherFormat);
    }
    let ceiling = Round(bytes::word_at(bytes, HEAD + STATE_CEILING));
    if bytes.len() != stored_length(ceiling) {
        return Err(StoringRefusal::Torn);
    }
    if !digest_fits(bytes, 4 * covered_length(ceiling)) {
        return Err(StoringRefusal::Torn);
    }
    if bytes::word_at(bytes, HEAD + STATE_OWN) != own {
        return Err(StoringRefusal::OtherMember);
    }
    if run_in(bytes) != run {
        return Err(StoringRefusal::OtherRun);
    }
    if !state_reads(bytes) {
        return Err(StoringRefusal::Unreadable);
    }
    if state < STATE || table < places::used_length(ceiling) {
        return Err(StoringRefusal::NoRoom);
    }
    Ok(ceiling)
}

/// Loads what the member `own` stored in this run. Refused, every word stays; else the state's words and the table's used words are those that were stored, and the others stay.
#[tactic(auto, unfolding(crate::specs::Loading::loaded_state, crate::specs::Loading::loaded_table))]
pub fn load(
    bytes: &[u8],
    own: u32,
    run: u64,
    state: &mut [u32],
    table: &mut [u32],
) -> Result<(), StoringRefusal>
    ensures refusal { refusal_in result
        ≡ load_refusal bytes.now own run (length state.old) (length table.old) }
    ensures state { state.new ≡ loaded_state bytes.now own run state.old table.old }
    ensures table { table.new ≡ loaded_table bytes.now own run state.old table.old }
{
    let ceiling = check(bytes, own, run, state.len(), table.len())?;
    bytes::read_words(state, STATE, bytes, HEAD);
    bytes::read_words(table, places::used_length(ceiling), bytes, HEAD + STATE);
    Ok(())
}
