//! Chains never fork, and what holds of held certificates and blocks, over every list of calls.

ghost use Rattle.std.specs.Prelude.{List, [], true, ℕ, ◌++◌, ◌<◌, ◌∷◌, ◌≡◌, ◌≤◌, Some};
ghost use Rattle.agreement.specs.Prefixes.{block_numbered};
ghost use Rattle.agreement.specs.Rules.{Block, Chain};
ghost use Rattle.engine.specs.Calls.{Call};
ghost use Rattle.engine.specs.Engine.{Engine};
ghost use Rattle.engine.specs.Sequences.{AllInRange, NoOpens, Opening, after_calls, after_opening};
ghost use Rattle.engine.specs.Steps.{view_at};
ghost use Rattle.nonforking.specs.Statement.{Agreed, Entry, Members, Prefix, Run, chain, engine_after, engine_behaviour};
ghost use Rattle.nonforking.specs.Stored.{Holds, Shows, Stored};
ghost use Rattle.nonforking.specs.Witness.{Met};
ghost use Rattle.rules.specs.AnchorStarts.{StartsWithAnchor};
ghost use Rattle.rules.specs.Calls.{fresh_view};
ghost use Rattle.state.specs.WellFormed.{well_formed};
ghost use Rattle.terms.specs.Proposals.{Content};

/// In every run of correct members' calls, of two correct members' chains one is a prefix of the other, and in the committee of every round that both know every member has the same weight.
#[tactic(auto, using(crate::proofs::Theorem::chains_never_fork))]
pub fn chains_never_fork()
    ensures { (X : Members engine_behaviour) (l : List Entry) → Run X l → Agreed X l }
{}

/// The premises can be met: there is a run of four members, one of them faulty, in which two make a block, and a bond changes the committee that signs after it.
pub fn premises_can_be_met()
    ensures { (X : Members engine_behaviour) × Met X }
{}

/// A correct member's number is 0 to 15: an open refuses any other.
pub fn correct_below_16()
    ensures { (X : Members engine_behaviour) (k : ℕ) → X.correct k ≡ true → k < 16 }
{}

/// Each correct member starts from the fresh state: round 1 and nothing else that the rules see.
pub fn members_start_fresh()
    ensures { (X : Members engine_behaviour) (k : ℕ) → X.correct k ≡ true
        → view_at X.settings (engine_after X [] k) ≡ fresh_view X.settings }
{}

/// A held certificate stays held, with its proposal and its endorsers, whatever calls follow, as long as no open is accepted.
pub fn certificate_stays()
    ensures { (e : Engine) (l : List Call) → NoOpens e l → (a r : ℕ) (p : Content) (d : ℕ)
        → Holds e.table a r p d → Holds (after_calls e l).table a r p d }
{}

/// From an opening: what an accepted certify or accept took since the last accepted open is held, with the endorsers that it took it with.
#[tactic(auto, using(crate::proofs::StoredLaws::stored_held))]
pub fn stored_held()
    ensures { (x : Opening) (l : List Call) → AllInRange l → (p : Content) (d : ℕ)
        → Stored (after_opening x) l p d
        → Holds (after_calls (after_opening x) l).table p.author p.round p d }
{}

/// And what is held an accepted certify or accept took, with those endorsers.
#[tactic(auto, using(crate::proofs::StoredLaws::held_stored))]
pub fn held_stored()
    ensures { (x : Opening) (l : List Call) → AllInRange l → (a r : ℕ) (p : Content) (d : ℕ)
        → r ≤ (after_calls (after_opening x) l).state.settings.ceiling
        → Holds (after_calls (after_opening x) l).table a r p d → Stored (after_opening x) l p d }
{}

/// What an accepted certify or accept took, the read of a certificate shows ever after, with the endorsers that it was taken with.
#[tactic(auto, using(crate::proofs::ShownLaws::stored_shown))]
pub fn stored_shown()
    ensures { (x : Opening) (l : List Call) → AllInRange l → (p : Content) (d : ℕ)
        → Stored (after_opening x) l p d
        → Shows (after_calls (after_opening x) l) p.author p.round p d }
{}

/// Every state that a correct member reaches in a run is well formed.
#[tactic(auto, using(crate::proofs::Lasting::run_formed))]
pub fn run_formed()
    ensures { (X : Members engine_behaviour) → (l : List Entry) → Run X l → (i : ℕ)
        → X.correct i ≡ true → well_formed (engine_after X l i).state (engine_after X l i).table
        ≡ true }
{}

/// A member's later chain lists the same blocks as its earlier one, with the same certificates in the same order, and perhaps more.
#[tactic(auto, using(crate::proofs::Lasting::chain_kept))]
pub fn chain_kept()
    ensures { (X : Members engine_behaviour) (m l : List Entry) (r : Run X (m ++ l)) (i : ℕ)
        (c : X.correct i ≡ true) → Prefix (engine_after X l i) (engine_after X (m ++ l) i) }
{}

/// A block once made stays, with its number, its round and its certificates.
#[tactic(auto, using(crate::proofs::Lasting::block_kept))]
pub fn block_kept()
    ensures { (X : Members engine_behaviour) (m l : List Entry) (r : Run X (m ++ l)) (i : ℕ)
        (c : X.correct i ≡ true) → (n : ℕ) (b : Block Content)
        → block_numbered (chain (engine_after X l i)) n ≡ Some b
        → block_numbered (chain (engine_after X (m ++ l) i)) n ≡ Some b }
{}

/// In each block of a correct member's chain the order of a round starts with the author of the block's anchor.
pub fn starts_with_anchor()
    ensures { (X : Members engine_behaviour) → (l : List Entry) → Run X l → (i : ℕ)
        → X.correct i ≡ true → (newer : Chain Content) (b : Block Content) (c : Chain Content)
        → chain (engine_after X l i) ≡ newer ++ (b ∷ c)
        → StartsWithAnchor X.settings (chain (engine_after X l i)) b c }
{}
