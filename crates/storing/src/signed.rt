//! What is signed of a proposal, of an endorsement and of a certificate, to the byte.

ghost use Rattle.std.specs.Prelude.{◌≡◌, ◌+◌, ◌/◌, ◌%◌, ◌≤◌, ◌∷◌, ◌++◌, [], IfOk, OnOk, length};
ghost use Rattle.std.proofs.Math.Seq.{paste};
ghost use Rattle.sha2.specs.Sha256.{sha256};
ghost use Rattle.words.specs.Lengths.{state_length, proposal_length, certificate_length};
ghost use Rattle.words.specs.Proposals.{proposal_in, certificate_in};
ghost use Rattle.storing.specs.Bytes.{bytes_of};
ghost use Rattle.storing.specs.Refusals.{refusal_in};
ghost use Rattle.storing.specs.Signed.{settings_words, run_digest, proposal_words, message, message_length, proposal_message_refusal, certificate_message_refusal, proposal_message_over, certificate_message_over};

use crate::bytes;
use crate::refusal::StoringRefusal;
use crate::stored::{DIGEST, high_half, low_half};
use terms::{Certificate, Proposal};
use words::bodies;
use words::bodies::lengths::{CERTIFICATE, PROPOSAL, STATE};
use words::bodies::stretch;
use words::places::{PROPOSAL_AUTHOR, PROPOSAL_BODY, STATE_LOOKBACK, STATE_MARGIN, STATE_ROUND};

/// The mark of a proposal, which its author signs: the letters FLP1.
pub const PROPOSAL_MARK: u32 = 0x3150_4C46;
/// The mark of an endorsement, which an endorser signs: the letters FLE1.
pub const ENDORSEMENT_MARK: u32 = 0x3145_4C46;
/// The mark of a certificate: the letters FLC1.
pub const CERTIFICATE_MARK: u32 = 0x3143_4C46;

/// How many settings stand in a row in a state, from the lookback on; the margin stands by itself.
pub const SETTINGS: usize = 19;
/// Words before those of a proposal: the mark, and the run's digest.
pub const MESSAGE_HEAD: usize = 9;

// The filled settings, then the two halves of the run's number.
fn run_words(state: &[u32], run: u64) -> [u32; 22]
    requires { state_length ≤ length state.now }
    ensures { result ≡ settings_words state.now ++ run % 4294967296 ∷ run / 4294967296 ∷ [] }
{
    let mut words = [0u32; 22];
    stretch::put(&mut words, 0, &state[STATE_LOOKBACK..STATE_ROUND]);
    stretch::put(
        &mut words,
        SETTINGS,
        &[state[STATE_MARGIN], low_half(run), high_half(run)],
    );
    words
}

// A digest over these words.
fn digest_of(words: &[u32; 22]) -> [u8; 32]
    ensures { result ≡ sha256 (bytes_of words.now) }
{
    let mut bytes = [0u8; 88];
    bytes::put_words(&mut bytes, 0, words);
    digests::sha256(&bytes)
}

// A digest over the run's settings and its number.
#[tactic(auto, unfolding(crate::specs::Signed::run_digest))]
fn run_digest(state: &[u32], run: u64) -> [u8; 32]
    requires { state_length ≤ length state.now }
    ensures { result ≡ run_digest state.now run }
{
    digest_of(&run_words(state, run))
}

// The sixteen words of a proposal.
fn proposal_words(proposal: Proposal) -> [u32; 16]
    ensures { result ≡ proposal_words proposal }
{
    let mut words = [0u32; 16];
    let author = proposal.author;
    let round = proposal.round;
    stretch::put(&mut words, PROPOSAL_AUTHOR, &[author.0, round.0]);
    bodies::put_body(&mut words, PROPOSAL_BODY, proposal.body);
    words
}

// The mark, the run and the words of a proposal.
#[tactic(auto, using(crate::proofs::SignedLaws::message_put))]
fn put_message(out: &mut [u8], mark: u32, state: &[u32], run: u64, proposal: Proposal)
    requires room { message_length proposal_length ≤ length out.old }
    requires state { state_length ≤ length state.now }
    ensures { out.new ≡ paste out.old 0 (message mark state.now run (proposal_words proposal))
        (message_length proposal_length) }
{
    bytes::put_words(out, 0, &[mark]);
    bytes::put(out, 4, &run_digest(state, run));
    bytes::put_words(out, MESSAGE_HEAD, &proposal_words(proposal));
}

// The checks of a proposal: 101 fewer words than a state has; 101 words that tell no proposal; 102 no room.
#[tactic(auto, unfolding(base::specs::Checks::refusal, crate::specs::Signed::proposal_message_refusal))]
fn check_proposal(state: &[u32], proposal: &[u32], room: usize) -> Result<Proposal, StoringRefusal>
    ensures refusal { refusal_in result
        ≡ proposal_message_refusal state.now proposal.now room }
    ensures value { IfOk result (λ p. p ≡ proposal_in proposal.now) }
    ensures state { OnOk result (state_length ≤ length state.now) }
    ensures room { OnOk result (message_length proposal_length ≤ room) }
{
    if state.len() < STATE {
        return Err(StoringRefusal::Unreadable);
    }
    let Some(p) = words::proposals::proposal(proposal) else {
        return Err(StoringRefusal::Unreadable);
    };
    if room < 4 * (MESSAGE_HEAD + PROPOSAL) {
        return Err(StoringRefusal::NoRoom);
    }
    Ok(p)
}

// The checks of a certificate: 101 fewer words than a state has; 101 words that tell no certificate; 102 no room.
#[tactic(auto, unfolding(base::specs::Checks::refusal, crate::specs::Signed::certificate_message_refusal))]
fn check_certificate(
    state: &[u32],
    certificate: &[u32],
    room: usize,
) -> Result<Certificate, StoringRefusal>
    ensures refusal { refusal_in result
        ≡ certificate_message_refusal state.now certificate.now room }
    ensures value { IfOk result (λ c. c ≡ certificate_in certificate.now) }
    ensures state { OnOk result (state_length ≤ length state.now) }
    ensures room { OnOk result (message_length certificate_length ≤ room) }
{
    if state.len() < STATE {
        return Err(StoringRefusal::Unreadable);
    }
    let Some(c) = words::proposals::certificate(certificate) else {
        return Err(StoringRefusal::Unreadable);
    };
    if room < 4 * (MESSAGE_HEAD + CERTIFICATE) {
        return Err(StoringRefusal::NoRoom);
    }
    Ok(c)
}

/// Puts what is signed of a proposal of sixteen words, or of an endorsement of it, as the mark tells: a hundred bytes. Refused, every byte stays.
#[tactic(auto, unfolding(crate::specs::Signed::proposal_message, crate::specs::Signed::proposal_message_over))]
pub fn proposal_bytes(
    mark: u32,
    state: &[u32],
    run: u64,
    proposal: &[u32],
    out: &mut [u8],
) -> Result<(), StoringRefusal>
    ensures refusal { refusal_in result
        ≡ proposal_message_refusal state.now proposal.now (length out.old) }
    ensures bytes { out.new ≡ proposal_message_over mark state.now run proposal.now out.old }
{
    let p = check_proposal(state, proposal, out.len())?;
    put_message(out, mark, state, run, p);
    Ok(())
}

/// Puts what is signed of a certificate of seventeen words: a hundred and four bytes. Refused, every byte stays.
#[tactic(auto, using(crate::proofs::SignedLaws::endorsers_put), unfolding(crate::specs::Signed::certificate_message, crate::specs::Signed::certificate_message_over))]
pub fn certificate_bytes(
    state: &[u32],
    run: u64,
    certificate: &[u32],
    out: &mut [u8],
) -> Result<(), StoringRefusal>
    ensures refusal { refusal_in result
        ≡ certificate_message_refusal state.now certificate.now (length out.old) }
    ensures bytes { out.new
        ≡ certificate_message_over CERTIFICATE_MARK state.now run certificate.now out.old }
{
    let c = check_certificate(state, certificate, out.len())?;
    put_message(out, CERTIFICATE_MARK, state, run, c.proposal);
    bytes::put_words(out, MESSAGE_HEAD + PROPOSAL, &[c.endorsers as u32]);
    Ok(())
}
