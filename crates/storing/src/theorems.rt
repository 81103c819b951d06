//! What was stored is loaded again, whatever stood there before, and nothing else is loaded; what is signed tells what was signed.

ghost use Rattle.std.specs.Prelude.{◌≡◌, ◌≢◌, ◌<◌, ◌≤◌, ◌++◌, List, ℕ, length, take, drop};
ghost use Rattle.sha2.specs.Sha256.{sha256};
ghost use Rattle.store.specs.Table.{used_length};
ghost use Rattle.words.specs.Lengths.{state_length};
ghost use Rattle.words.specs.Proposals.{proposal_in, certificate_in};
ghost use Rattle.words.specs.Words.{word};
ghost use Rattle.words.specs.declared.places.TheConstants.{STATE_OWN};
ghost use Rattle.storing.specs.Bytes.{IsBytes, IsWords};
ghost use Rattle.storing.specs.Loading.{state_words_in, table_words_in, load_refusal, loaded_state, loaded_table};
ghost use Rattle.storing.specs.Round.{IsStored, HasRoom, IsRun};
ghost use Rattle.storing.specs.Signed.{settings_words, run_bytes, run_digest, proposal_message, certificate_message};
ghost use Rattle.storing.specs.Stored.{ceiling_of, stored, stored_length};
ghost use Rattle.storing.specs.Storing.{store_refusal, stored_over};

/// What was stored is loaded by the same member in the same run, wherever there is room: state and table then begin with the words that were stored, and the rest stays. Where more bytes are lent than store writes, it writes the front of them and leaves the others. Load takes this front, and refuses the whole stretch and every other front as torn, whoever loads.
#[tactic(auto, using(crate::proofs::RoundLaws::stored_accepted, crate::proofs::RoundLaws::stored_state, crate::proofs::RoundLaws::stored_table, crate::proofs::LongerLaws::front_written, crate::proofs::LongerLaws::rest_kept, crate::proofs::LongerLaws::whole_torn, crate::proofs::LongerLaws::other_torn))]
pub fn stored_loads()
    ensures accepted { (run : ℕ) (w t b u v : List ℕ) → IsStored run w t b → HasRoom w u v
        → load_refusal (stored run w t) (word w STATE_OWN) run (length u) (length v) ≡ 0 }
    ensures state { (run : ℕ) (w t b u v : List ℕ) → IsStored run w t b → HasRoom w u v
        → loaded_state (stored run w t) (word w STATE_OWN) run u v
        ≡ take state_length w ++ drop state_length u }
    ensures table { (run : ℕ) (w t b u v : List ℕ) → IsStored run w t b → HasRoom w u v
        → loaded_table (stored run w t) (word w STATE_OWN) run u v
        ≡ take (used_length (ceiling_of w)) t ++ drop (used_length (ceiling_of w)) v }
    ensures written { (run : ℕ) (w t b : List ℕ) → IsStored run w t b
        → take (stored_length (ceiling_of w)) (stored_over run w t b) ≡ stored run w t }
    ensures rest { (run : ℕ) (w t b : List ℕ) → IsStored run w t b
        → drop (stored_length (ceiling_of w)) (stored_over run w t b)
        ≡ drop (stored_length (ceiling_of w)) b }
    ensures whole { (run : ℕ) (w t b : List ℕ) (own run' n m : ℕ) → IsStored run w t b
        → stored_length (ceiling_of w) < length b
        → load_refusal (stored_over run w t b) own run' n m ≡ 105 }
    ensures fronts { (run : ℕ) (w t b : List ℕ) (own run' n m k : ℕ) → IsStored run w t b
        → k ≤ length b → k ≢ stored_length (ceiling_of w)
        → load_refusal (take k (stored_over run w t b)) own run' n m ≡ 105 }
{}

/// Bytes that are loaded are what store writes for the words that they give, so their digest is that of these words; the words are the member's own, and store takes them.
#[tactic(auto, using(crate::proofs::RoundLaws::loaded_same, crate::proofs::RoundLaws::loaded_own, crate::proofs::RoundLaws::loaded_taken))]
pub fn loaded_stored()
    ensures bytes { (b : List ℕ) (own run n m : ℕ) → IsBytes b → load_refusal b own run n m ≡ 0
        → stored run (state_words_in b) (table_words_in b) ≡ b }
    ensures own { (b : List ℕ) (own run n m : ℕ) → load_refusal b own run n m ≡ 0
        → word (state_words_in b) STATE_OWN ≡ own }
    ensures taken { (b : List ℕ) (own run n m : ℕ) → load_refusal b own run n m ≡ 0
        → store_refusal (state_words_in b) (length (table_words_in b)) (length b) ≡ 0 }
{}

/// Two members that are stored in the same bytes are the same, in the same run.
#[tactic(auto, using(crate::proofs::RoundLaws::same_run, crate::proofs::RoundLaws::same_state, crate::proofs::RoundLaws::same_table))]
pub fn stored_once()
    ensures run { (run run' : ℕ) (w w' t t' b b' : List ℕ) → IsStored run w t b
        → IsStored run' w' t' b' → stored run w t ≡ stored run' w' t' → run ≡ run' }
    ensures state { (run run' : ℕ) (w w' t t' b b' : List ℕ) → IsStored run w t b
        → IsStored run' w' t' b' → stored run w t ≡ stored run' w' t'
        → take state_length w ≡ take state_length w' }
    ensures table { (run run' : ℕ) (w w' t t' b b' : List ℕ) → IsStored run w t b
        → IsStored run' w' t' b' → stored run w t ≡ stored run' w' t'
        → take (used_length (ceiling_of w)) t ≡ take (used_length (ceiling_of w')) t' }
{}

/// What is signed of a proposal, or of an endorsement of it, tells the mark, the run's digest and the proposal: two with the same bytes are the same.
#[tactic(auto, using(crate::proofs::OnceLaws::proposal_mark, crate::proofs::OnceLaws::proposal_run, crate::proofs::OnceLaws::proposal_same))]
pub fn proposal_told()
    ensures mark { (mark mark' : ℕ) (w w' : List ℕ) (run run' : ℕ) (x x' : List ℕ)
        → mark < 4294967296 → mark' < 4294967296
        → proposal_message mark w run x ≡ proposal_message mark' w' run' x' → mark ≡ mark' }
    ensures run { (mark mark' : ℕ) (w w' : List ℕ) (run run' : ℕ) (x x' : List ℕ)
        → proposal_message mark w run x ≡ proposal_message mark' w' run' x'
        → run_digest w run ≡ run_digest w' run' }
    ensures proposal { (mark mark' : ℕ) (w w' : List ℕ) (run run' : ℕ) (x x' : List ℕ)
        → IsWords x → IsWords x'
        → proposal_message mark w run x ≡ proposal_message mark' w' run' x'
        → proposal_in x ≡ proposal_in x' }
{}

/// What is signed of a certificate tells the mark, the run's digest and the certificate, its endorsers among it.
#[tactic(auto, using(crate::proofs::OnceLaws::certificate_mark, crate::proofs::OnceLaws::certificate_run, crate::proofs::OnceLaws::certificate_same))]
pub fn certificate_told()
    ensures mark { (mark mark' : ℕ) (w w' : List ℕ) (run run' : ℕ) (x x' : List ℕ)
        → mark < 4294967296 → mark' < 4294967296
        → certificate_message mark w run x ≡ certificate_message mark' w' run' x' → mark ≡ mark' }
    ensures run { (mark mark' : ℕ) (w w' : List ℕ) (run run' : ℕ) (x x' : List ℕ)
        → certificate_message mark w run x ≡ certificate_message mark' w' run' x'
        → run_digest w run ≡ run_digest w' run' }
    ensures certificate { (mark mark' : ℕ) (w w' : List ℕ) (run run' : ℕ) (x x' : List ℕ)
        → IsWords x → IsWords x'
        → certificate_message mark w run x ≡ certificate_message mark' w' run' x'
        → certificate_in x ≡ certificate_in x' }
{}

/// What is signed of a proposal, or of an endorsement, is never what is signed of a certificate, whatever the marks: they differ in length.
#[tactic(auto, using(crate::proofs::OnceLaws::kinds_differ))]
pub fn kinds_apart()
    ensures { (mark mark' : ℕ) (w w' : List ℕ) (run run' : ℕ) (x x' : List ℕ)
        → proposal_message mark w run x ≢ certificate_message mark' w' run' x' }
{}

/// The run's digest is over 88 bytes that tell the filled settings and the run's number: of unequal settings, or of unequal numbers, they are unequal.
#[tactic(auto, using(crate::proofs::OnceLaws::run_digested, crate::proofs::OnceLaws::run_bytes_long, crate::proofs::OnceLaws::same_settings, crate::proofs::OnceLaws::same_number))]
pub fn run_told()
    ensures digest { (w : List ℕ) (run : ℕ) → run_digest w run ≡ sha256 (run_bytes w run) }
    ensures length { (w : List ℕ) (run : ℕ) → IsRun w run → length (run_bytes w run) ≡ 88 }
    ensures settings { (w w' : List ℕ) (run run' : ℕ) → IsRun w run → IsRun w' run'
        → run_bytes w run ≡ run_bytes w' run' → settings_words w ≡ settings_words w' }
    ensures run { (w w' : List ℕ) (run run' : ℕ) → IsRun w run → IsRun w' run'
        → run_bytes w run ≡ run_bytes w' run' → run ≡ run' }
{}
