//! What committees, fault bounds, shares, the order inside a block and the effect of a bond keep to; and the cases by numbers of docs/RULES.md, "Edges", and of bonds, each as one table.

ghost use Rattle.std.specs.Prelude.{List, length, true, ℕ, ◌%◌, ◌*◌, ◌+◌, ◌-◌, ◌/◌, ◌<◌, ◌∷◌, ◌≡◌, ◌≤◌, None};
ghost use Rattle.agreement.specs.Laws.{Lawful};
ghost use Rattle.agreement.specs.Prefixes.{◌≼◌};
ghost use Rattle.agreement.specs.Rules.{Block, Chain};
ghost use Rattle.committee.specs.BondEdges as bonds;
ghost use Rattle.committee.specs.BondEffects.{bond_effect, bonded, most_moved};
ghost use Rattle.committee.specs.Changes.{rows};
ghost use Rattle.committee.specs.Committees.{MarginFits, bonded_from, bound_of, committee_of, ordered};
ghost use Rattle.committee.specs.Edges.{agree, cases};
ghost use Rattle.committee.specs.Instance.{rules};
ghost use Rattle.committee.specs.Keys.{by_keys};
ghost use Rattle.committee.specs.Leaders.{leader_of};
ghost use Rattle.committee.specs.Shares.{Near, apart, share_of};
ghost use Rattle.committee.specs.Totals.{total_in};
ghost use Rattle.terms.specs.Proposals.{Content};
ghost use Rattle.terms.specs.Ranges.{weight_in};
ghost use Rattle.terms.specs.declared.sheet.Settings.{Settings};
ghost use Rattle.terms.specs.declared.sheet.Weight.{Weight};

/// Up to the lookback the committee of a round is the starting one, and above it the bonded one of the round that many rounds before.
#[tactic(auto, using(crate::proofs::CommitteeLaws::by_lookback))]
pub fn committee_by_lookback()
    ensures starting { (S : Settings) (c : Chain Content) (r : ℕ) → r ≤ S.lookback
        → committee_of S c r ≡ S.weights }
    ensures bonded { (S : Settings) (c : Chain Content) (r : ℕ) → S.lookback < r
        → committee_of S c r ≡ bonded_from S c (r - S.lookback) }
{}

/// The committee of a block's round is the one that the chain below the block tells: neither the block itself nor a later one changes it.
#[tactic(auto, using(crate::proofs::Lawful::committee_below))]
pub fn own_block_never_counts()
    ensures { (S : Settings) (b : Block Content) (c d : Chain Content) → (b ∷ c) ≼ d
        → committee_of S d b.round ≡ committee_of S c b.round }
{}

/// By any margin from 3 to 5 the fault bound is less than a third of a total that is not 0.
#[tactic(auto, using(crate::proofs::CommitteeLaws::bounds))]
pub fn bound_below_a_third()
    ensures { (d : ℕ) → MarginFits d → (n : ℕ) → 3 * bound_of d n ≤ n - 1 }
{}

/// With settings of any margin from 3 to 5 the rules meet the laws of the theory.
#[tactic(auto, using(crate::proofs::Lawful::lawful))]
pub fn rules_are_lawful()
    ensures { (S : Settings) → MarginFits S.margin → Lawful (rules S) }
{}

/// In a block rounds rise, and within a round numbers rise from the first member on, with 0 after 15: certificates stand by rising keys, each once.
#[tactic(auto, using(crate::proofs::OrderLaws::by_rising_keys))]
pub fn ordered_by_keys()
    ensures { (b : Block Content) (a n : ℕ) → rows b a n ≡ by_keys b a (n * 16) }
{}

/// Where a block's round has no leader, numbers just rise.
#[tactic(auto, using(crate::proofs::OrderLaws::ordered_unled))]
pub fn ordered_unled()
    ensures { (S : Settings) (b : Block Content) (c : Chain Content)
        → leader_of (weight_in (committee_of S c b.round)) b.round ≡ None
        → ordered S b c ≡ rows b 0 S.ceiling }
{}

/// A share is nearest to the true one, twice the distance being at most one thousandth; at an exact half it is the even neighbour; no other number is both; it is at most 1,000; and that of a non-member is 0.
#[tactic(auto, using(crate::proofs::ShareLaws::shares, crate::proofs::BondEffectLaws::unweighted))]
pub fn shares_are_nearest()
    ensures near { (w n : ℕ) → 0 < n → Near (1000 * w) n (share_of w n) }
    ensures even { (w q n : ℕ) → 0 < n → 2 * (1000 * w) ≡ 2 * (n * q) + n → share_of w n % 2 ≡ 0 }
    ensures no_other { (w n s : ℕ) → 0 < n → Near (1000 * w) n s
        → ((q : ℕ) → 2 * (1000 * w) ≡ 2 * (n * q) + n → s % 2 ≡ 0) → s ≡ share_of w n }
    ensures at_most { (w n : ℕ) → 0 < n → w ≤ n → share_of w n ≤ 1000 }
    ensures unweighted { (n : ℕ) → 0 < n → share_of 0 n ≡ 0 }
{}

/// Where a weight grows by at most k and the total, above 0, by k, the two shares are at most 1 plus the whole part of 1,000 times k divided by the new total apart.
#[tactic(auto, using(crate::proofs::MoveLaws::moves))]
pub fn share_moves_at_most()
    ensures { (n k w v : ℕ) → 0 < n → w ≤ n → w ≤ v → v ≤ w + k
        → apart (share_of w n) (share_of v (n + k)) ≤ 1 + 1000 * k / (n + k) }
{}

/// A bond adds its amount to the total, and where the total was above 0, no share moves further than the bound.
#[tactic(auto, using(crate::proofs::BondEffectLaws::after_bond, crate::proofs::BondEffectLaws::effect_le))]
pub fn bond_moves_shares()
    ensures total { (w : List Weight) (m a : ℕ) → length w ≡ 16 → m < 16
        → total_in (bonded m a w) ≡ total_in w + a }
    ensures largest { (w : List Weight) (m a : ℕ) → length w ≡ 16 → m < 16 → 0 < total_in w
        → (bond_effect m a w).largest ≤ most_moved (total_in w) a }
{}

/// Fault bounds, quorum weights, known rounds, committees, leaders, shares and orders of blocks by numbers: both numbers of each row are equal.
#[tactic(auto, using(crate::proofs::EdgeCases::edges))]
pub fn edges()
    ensures { agree cases ≡ true }
{}

/// What bonds do to shares by numbers.
#[tactic(auto, using(crate::proofs::BondEdgeCases::bond_edges))]
pub fn bond_edges()
    ensures { agree bonds.cases ≡ true }
{}
