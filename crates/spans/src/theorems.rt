//! What blocks hold, read one after the other, is the chain as it is listed: it may be read in pieces, what was read stays, and there is always room.

ghost use Rattle.std.specs.Prelude.{List, length, ℕ, true, ◌++◌, ◌+◌, ◌*◌, ◌/◌, ◌≡◌, ◌≤◌};
ghost use Rattle.base.specs.Folds.{tab};
ghost use Rattle.agreement.specs.Rules.{Chain};
ghost use Rattle.agreement.specs.Prefixes.{◌≼◌};
ghost use Rattle.agreement.specs.Listing.{listing};
ghost use Rattle.terms.specs.Proposals.{Content};
ghost use Rattle.terms.specs.declared.sheet.Settings.{Settings};
ghost use Rattle.committee.specs.Committees.{ordered};
ghost use Rattle.state.specs.declared.State.{State};
ghost use Rattle.state.specs.WellFormed.{well_formed};
ghost use Rattle.spans.specs.Contents.{contents_of, numbered_contents};
ghost use Rattle.spans.specs.Spans.{held_after};
ghost use Rattle.spans.specs.Listed.{blocks_refusal};

/// The blocks of a chain by their numbers from 1, each with its round and what it holds, are the chain as the rules list it.
#[tactic(auto, using(crate::proofs::ClaimLaws::listed_by_number))]
pub fn listed_by_number()
    ensures { (S : Settings) (c : Chain Content)
        → listing (ordered S) c ≡ tab (λ i. numbered_contents S c (i + 1)) (length c) }
{}

/// What a block holds stays, whatever blocks come after it.
#[tactic(auto, using(crate::proofs::ClaimLaws::contents_stay))]
pub fn contents_stay()
    ensures { (S : Settings) (c d : Chain Content) (k : ℕ) → c ≼ d → k ≤ length c
        → contents_of S d k ≡ contents_of S c k }
{}

/// Read in two pieces it is the same as read at once.
#[tactic(auto, using(crate::proofs::ClaimLaws::in_pieces))]
pub fn in_pieces()
    ensures { (S : Settings) (c : Chain Content) (t : List ℕ) (m n k : ℕ)
        → held_after S c t m (n + k) ≡ held_after S c t m n ++ held_after S c t (m + n) k }
{}

/// Whatever blocks come later, what older ones hold stays.
#[tactic(auto, using(crate::proofs::ClaimLaws::stays))]
pub fn stays()
    ensures { (S : Settings) (c d : Chain Content) (t : List ℕ) (m n : ℕ) → c ≼ d → m + n ≤ length c
        → held_after S d t m n ≡ held_after S c t m n }
{}

/// A list of sixteen certificates for each of the rounds 0 to the ceiling has room for all blocks: then none that are there are refused.
#[tactic(auto, using(crate::proofs::ClaimLaws::room_for_all))]
pub fn room_for_all()
    ensures { (s : State) (t : List ℕ) (m n words : ℕ) → well_formed s t ≡ true → m + n ≤ s.blocks
        → 16 * s.settings.ceiling + 16 ≤ words / 18 → blocks_refusal s t m n words ≡ 0 }
{}
