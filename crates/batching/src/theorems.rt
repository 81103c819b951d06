//! The answers of an accepted batch, of the words that it is handed.

ghost use Rattle.std.specs.Prelude.{List, if◌then◌else◌, get_or, length, ℕ, ◌<◌, ◌≡◌};
ghost use Rattle.batching.specs.Batched.{batch_result};
ghost use Rattle.batching.specs.Claims.{AtItsTurn, accept_answer};
ghost use Rattle.batching.specs.Rows.{no_record};
ghost use Rattle.batching.specs.declared.rows.CertificateRecord.{CertificateRecord};
ghost use Rattle.store.specs.Table.{held_at};

/// Each certificate of an accepted batch is answered as accept answers it at its turn.
#[tactic(auto, using(crate::proofs::ClaimLaws::answered_as_accept))]
pub fn answered_as_accept()
    ensures { (w t : List ℕ) (row : List CertificateRecord) (answers : List ℕ)
        → (batch_result w t row answers).refusal ≡ 0 → (q : ℕ) → q < length row
        → AtItsTurn w t row answers q }
{}

/// What got 11 in an accepted batch gets 17 when it is offered again where its place is held by then, and else 11.
#[tactic(auto, using(crate::proofs::ClaimLaws::offered_again))]
pub fn offered_again()
    ensures { (w t : List ℕ) (row : List CertificateRecord) (answers : List ℕ)
        → (batch_result w t row answers).refusal ≡ 0 → (q : ℕ) → q < length row
        → get_or (batch_result w t row answers).out q 0 ≡ 11
        → let u = (batch_result w t row answers).table in let e = get_or row q no_record in
        accept_answer w u e ≡ (if held_at u e.author e.round then 17 else 11) }
{}
