//! The premises of the claims of runs can be met.

ghost use Rattle.std.specs.Prelude.{[], ℕ, ◌∷◌, ◌≤◌};
ghost use Rattle.library.specs.Hosts.{Hosts};
ghost use Rattle.nonforking.specs.Statement.{Members, engine_behaviour};
ghost use Rattle.witnesses.specs.Mixed.{MetOverWords, MetWithADraw, MetWithBatches, MetWithGuests, bond, calls, run};
ghost use Rattle.witnesses.specs.Margins.{Met};

/// Under the margins 4 and 5 too: two members and a faulty one make a block, and a bond in it changes the committee; then a certificate has signers that are a quorum of the changed committee alone.
pub fn met_by_margins()
    ensures { (m : ℕ) → 4 ≤ m → m ≤ 5 → (X : Members engine_behaviour) × Met m X }
{}

/// With draws among the calls: a guest fills in a bond, a draw proposes it, and it stands in the block that two members make.
pub fn met_with_a_draw()
    ensures { (X : Members engine_behaviour) × MetWithADraw X (bond ∷ []) }
{}

/// With batches: one of three certificates counts as three accepts in their turns, and the last of these, at the first place of the row, is refused with 11.
pub fn met_with_batches()
    ensures { (X : Members engine_behaviour) × MetWithBatches X (11 ∷ 0 ∷ 0 ∷ []) }
{}

/// With guests' requests: who has the right does what the host would, and who lacks it is refused with 29.
pub fn met_with_guests()
    ensures { (X : Members engine_behaviour) × MetWithGuests X 29 }
{}

/// Over words: hosts lend words and hand in words, which are read as those very calls.
pub fn met_over_words()
    ensures { (X : Hosts) × MetOverWords X (calls run) }
{}
