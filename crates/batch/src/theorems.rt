//! The order of turns in a batch, rows of none and of one, a refused batch, and what certificates get when they are offered again.

ghost use Rattle.std.specs.Prelude.{List, drop, length, ℕ, ◌<◌, ◌∷◌, ◌≡◌, ◌≢◌, Some};
ghost use Rattle.accept.specs.Accept.{accept_refusal, accept_table};
ghost use Rattle.batch.specs.Again.{AgainAs, RowReads};
ghost use Rattle.batch.specs.Batch.{Row, answer_at, batch_answers, batch_refusal, batch_table};
ghost use Rattle.batch.specs.Order.{OneTurnEach};
ghost use Rattle.batch.specs.Turns.{Key, turns};
ghost use Rattle.state.specs.States.{own_body};
ghost use Rattle.state.specs.declared.State.{State};
ghost use Rattle.terms.specs.declared.Certificate.{Certificate};

/// Every place of the row has exactly one turn, in the order said.
#[tactic(auto, using(crate::proofs::OrderLaws::each_has_one_turn))]
pub fn each_has_one_turn()
    ensures { (keys : ℕ → Key) (n : ℕ) → OneTurnEach keys n (turns keys n) }
{}

/// A row of one is one accept: its table, and its number, the other answers as they were.
pub fn batch_of_one()
    ensures { (s : State) (t : List ℕ) (row : Row) (answers : List ℕ) → row.count ≡ 1
        → (c : Certificate) → (row.at 0).certificate ≡ Some c
        → batch_refusal s t row.count (length answers) ≡ 0
        → (batch_table s t row answers ≡ accept_table s t c)
        × (batch_answers s t row answers ≡ accept_refusal s t c ∷ drop 1 answers) }
{}

/// A row of none leaves table and answers as they were.
pub fn batch_of_none()
    ensures { (s : State) (t : List ℕ) (row : Row) (answers : List ℕ) → row.count ≡ 0
        → (batch_table s t row answers ≡ t) × (batch_answers s t row answers ≡ answers) }
{}

/// A refused batch leaves table and answers as they were.
pub fn batch_refused()
    ensures { (s : State) (t : List ℕ) (row : Row) (answers : List ℕ)
        → batch_refusal s t row.count (length answers) ≢ 0 → (batch_table s t row answers ≡ t)
        × (batch_answers s t row answers ≡ answers) }
{}

/// After an accepted batch, a certificate that got 11 gets 11 again, or 17 where another of the row has since filled its place.
pub fn eleven_again_or_seventeen()
    ensures { (s : State) (t : List ℕ) (row : Row) (room : ℕ) → RowReads row
        → (own_body s).previous < 65536 → batch_refusal s t row.count room ≡ 0
        → (q : ℕ) (c : Certificate)
        → q < row.count → (row.at q).certificate ≡ Some c → answer_at s row t q ≡ 11
        → AgainAs s row t q c }
{}
