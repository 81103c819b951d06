//! What the read of a bond's effect says of the shares, and that a held certificate is in at most one block.

ghost use Rattle.std.specs.Prelude.{List, get_or, length, true, ℕ, ◌<◌, ◌≡◌, ◌≢◌, ◌≤◌};
ghost use Rattle.agreement.specs.Dag.{is_held};
ghost use Rattle.committee.specs.BondEffects.{most_moved};
ghost use Rattle.committee.specs.Chain.{block_at, chain_of};
ghost use Rattle.reads.specs.Bounds.{moved_at, total_at};
ghost use Rattle.reads.specs.Reads.{effect_refusal, share_refusal};
ghost use Rattle.rules.specs.Reads.{block_number, effect_read, share_read};
ghost use Rattle.rules.specs.Tests.{committee_in};
ghost use Rattle.state.specs.View.{view};
ghost use Rattle.state.specs.declared.State.{State};
ghost use Rattle.store.specs.Table.{held_at, mark_at};

/// No accepted read of a bond's effect tells a larger difference than the bound: of states with sixteen starting weights, as every state has that is read from words or opened.
#[tactic(auto, using(crate::proofs::BoundLaws::effect_bounded))]
pub fn effect_bounded()
    ensures { (s : State) (t : List ℕ) → length s.settings.weights ≡ 16 → (m r a : ℕ)
        → effect_refusal s t m r a ≡ 0
        → (effect_read s.settings (view s t) m r a).largest ≤ most_moved (total_at s t r) a }
{}

/// No share moves further than the largest difference, and one moves as far.
#[tactic(auto, using(crate::proofs::BoundLaws::none_moves_further, crate::proofs::BoundLaws::one_moves_as_far))]
pub fn largest_of_all()
    ensures bound { (s : State) (t : List ℕ) (m r a : ℕ) → effect_refusal s t m r a ≡ 0 → (i : ℕ)
        → i < 16
        → moved_at (effect_read s.settings (view s t) m r a) i
        ≤ (effect_read s.settings (view s t) m r a).largest }
    ensures reached { (s : State) (t : List ℕ) (m r a : ℕ) → effect_refusal s t m r a ≡ 0
        → (i : ℕ) × (i < 16)
        × (moved_at (effect_read s.settings (view s t) m r a) i
        ≡ (effect_read s.settings (view s t) m r a).largest) }
{}

/// A share that can be read is the one before the bond.
#[tactic(auto, using(crate::proofs::BoundLaws::effect_of_shares))]
pub fn effect_of_shares()
    ensures { (s : State) (t : List ℕ) (m r a i : ℕ) → effect_refusal s t m r a ≡ 0
        → share_refusal s t i r ≡ 0
        → get_or (effect_read s.settings (view s t) m r a).before i 0 ≡ share_read
        s.settings (view s t) i r }
{}

/// The share of a number that is no member is 0, and stays 0 unless it is the one that bonds.
#[tactic(auto, using(crate::proofs::BoundLaws::none_before, crate::proofs::BoundLaws::none_after))]
pub fn none_without_weight()
    ensures before { (s : State) (t : List ℕ) (m r a i : ℕ) → effect_refusal s t m r a ≡ 0 → i < 16
        → committee_in s.settings (view s t) r i ≡ 0
        → get_or (effect_read s.settings (view s t) m r a).before i 0 ≡ 0 }
    ensures after { (s : State) (t : List ℕ) → length s.settings.weights ≡ 16 → (m r a i : ℕ)
        → effect_refusal s t m r a ≡ 0 → i < 16 → committee_in s.settings (view s t) r i ≡ 0 → i ≢ m
        → get_or (effect_read s.settings (view s t) m r a).after i 0 ≡ 0 }
{}

/// A held certificate is in at most one block, and its mark is the number of that block, 0 for none.
#[tactic(auto, using(crate::proofs::BlockLaws::in_one_block, crate::proofs::BlockLaws::mark_number))]
pub fn in_one_block()
    ensures once { (n : ℕ) (t : List ℕ) (a r : ℕ) → 0 < r → r ≤ n → held_at t a r ≡ true
        → (i j : ℕ) → is_held ((block_at n t i).holds a r) ≡ true
        → is_held ((block_at n t j).holds a r) ≡ true → i ≡ j }
    ensures marked { (n : ℕ) (t : List ℕ) (a r : ℕ) → 0 < r → r ≤ n → held_at t a r ≡ true → (k : ℕ)
        → mark_at t a r ≤ k → block_number (chain_of n t k) a r ≡ mark_at t a r }
{}
