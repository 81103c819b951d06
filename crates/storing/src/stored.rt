//! The stored form of a member, and to store it.

ghost use Rattle.std.specs.Prelude.{◌≡◌, ◌+◌, ◌*◌, ◌/◌, ◌%◌, ◌<◌, ◌≤◌, IfOk, OnOk, length, take};
ghost use Rattle.std.proofs.Math.Seq.{paste};
ghost use Rattle.sha2.specs.Sha256.{sha256};
ghost use Rattle.store.specs.Table.{used_length};
ghost use Rattle.words.specs.Lengths.{state_length};
ghost use Rattle.storing.specs.Bytes.{bytes_of};
ghost use Rattle.storing.specs.Refusals.{refusal_in};
ghost use Rattle.storing.specs.Stored.{digest_length, covered_length, stored_length, head_words, ceiling_of, covered_words};
ghost use Rattle.storing.specs.Storing.{store_refusal, stored_over};

use crate::bytes;
use crate::refusal::StoringRefusal;
use store::places;
use terms::Round;
use words::bodies::lengths::STATE;

/// The mark of a stored member, the letters FLS1.
pub const MARK: u32 = 0x3153_4C46;
/// The number of the format of state and table, which `forgelilac_format` tells too (docs/TABLES.md, "Format"). The form of the bytes around them has the mark, and no number.
pub const FORMAT: u32 = 3;

/// Words of the head.
pub const HEAD: usize = 4;
/// Of the head: the mark.
pub const HEAD_MARK: usize = 0;
/// Of the head: the format.
pub const HEAD_FORMAT: usize = 1;
/// Of the head: the low half of the run's number.
pub const HEAD_RUN_LOW: usize = 2;
/// Of the head: the high half of the run's number.
pub const HEAD_RUN_HIGH: usize = 3;
/// Bytes of the digest.
pub const DIGEST: usize = 32;

/// How many words stand before the digest, of a ceiling.
pub(crate) fn covered_length(ceiling: Round) -> usize
    ensures { result ≡ covered_length ceiling }
{
    HEAD + STATE + places::used_length(ceiling)
}

/// How many bytes a member of this ceiling is stored in.
pub fn stored_length(ceiling: Round) -> usize
    ensures { result ≡ stored_length ceiling }
{
    4 * covered_length(ceiling) + DIGEST
}

/// The low half of a run's number.
pub(crate) fn low_half(run: u64) -> u32
    ensures { result ≡ run % 4294967296 }
{
    (run % 4294967296) as u32
}

/// The high half of a run's number.
pub(crate) fn high_half(run: u64) -> u32
    ensures { result ≡ run / 4294967296 }
{
    (run / 4294967296) as u32
}

// The head's words.
fn head_words(run: u64) -> [u32; 4]
    ensures { result ≡ head_words run }
{
    [MARK, FORMAT, low_half(run), high_half(run)]
}

// The checks: 101 the state cannot be read or the table is too short; 102 no room.
#[tactic(auto, using(crate::proofs::StoredLaws::reads_long), unfolding(base::specs::Checks::refusal, crate::specs::Storing::store_refusal, words::specs::States::state_in, words::specs::States::settings_in))]
fn check(state: &[u32], table: usize, room: usize) -> Result<Round, StoringRefusal>
    ensures refusal { refusal_in result ≡ store_refusal state.now table room }
    ensures value { IfOk result (λ c. c ≡ ceiling_of state.now) }
    ensures state { OnOk result (state_length ≤ length state.now) }
    ensures table { IfOk result (λ c. used_length c ≤ table) }
    ensures room { IfOk result (λ c. stored_length c ≤ room) }
{
    let Some(s) = words::states::state(state) else {
        return Err(StoringRefusal::Unreadable);
    };
    let ceiling = s.settings.ceiling;
    if table < places::used_length(ceiling) {
        return Err(StoringRefusal::Unreadable);
    }
    if room < stored_length(ceiling) {
        return Err(StoringRefusal::NoRoom);
    }
    Ok(ceiling)
}

// The first words.
fn first(words: &[u32], count: usize) -> &[u32]
    requires { count ≤ length words.now }
    ensures words { result.now ≡ take count words.now }
    ensures length { length result.now ≡ count }
{
    &words[..count]
}

// The words before the digest, and nothing else.
#[tactic(auto, using(crate::proofs::StoredLaws::covered_put), unfolding(crate::specs::Stored::covered_words))]
fn put_covered(out: &mut [u8], run: u64, state: &[u32], table: &[u32], ceiling: Round)
    requires room { 4 * covered_length ceiling ≤ length out.old }
    requires ceiling { ceiling ≡ ceiling_of state.now }
    requires state { state_length ≤ length state.now }
    requires table { used_length ceiling ≤ length table.now }
    ensures { out.new ≡ paste out.old 0 (bytes_of (covered_words run state.now table.now))
        (4 * covered_length ceiling) }
{
    bytes::put_words(out, 0, &head_words(run));
    bytes::put_words(out, HEAD, first(state, STATE));
    bytes::put_words(
        out,
        HEAD + STATE,
        first(table, places::used_length(ceiling)),
    );
}

// The digest over the first `covered` bytes, behind them.
fn put_digest(out: &mut [u8], covered: usize)
    requires room { covered + digest_length ≤ length out.old }
    requires end { covered % 64 < 56 }
    ensures { out.new ≡ paste out.old covered (sha256 (take covered out.old)) digest_length }
{
    let digest = digests::sha256(&out[..covered]);
    bytes::put(out, covered, &digest);
}

/// Stores a member: the state's words and the table's used words, under the run's number. Refused, every byte stays; else the bytes that `stored_length` counts are written, and the others stay.
#[tactic(auto, using(crate::proofs::StoredLaws::stored_put, crate::proofs::StoredLaws::covered_end), unfolding(crate::specs::Storing::stored_over))]
pub fn store(state: &[u32], table: &[u32], run: u64, out: &mut [u8]) -> Result<(), StoringRefusal>
    ensures refusal { refusal_in result
        ≡ store_refusal state.now (length table.now) (length out.old) }
    ensures bytes { out.new ≡ stored_over run state.now table.now out.old }
{
    let ceiling = check(state, table.len(), out.len())?;
    put_covered(out, run, state, table, ceiling);
    put_digest(out, 4 * covered_length(ceiling));
    Ok(())
}
