//! What a bond does to the shares of a committee: all sixteen before and after, and how far they move (docs/RULES.md, "How far a bond moves the shares").

ghost use Rattle.std.specs.Prelude.{◌≡◌};
ghost use Rattle.committee.specs.BondEffects.{shares_of, largest_to, bond_effect, TotalOf, Bonds};

use crate::{change, shares};
use terms::Member;
use terms::sheet::Weight;

/// What a bond does to sixteen shares, in thousandths.
#[derive(Debug, Clone, Copy)]
pub struct Effect {
    /// The share of each member before the bond, 0 for a non-member.
    pub before: [u32; 16],
    /// The share of each member after it.
    pub after: [u32; 16],
    /// The largest difference of the sixteen, without sign.
    pub largest: u32,
}

// All sixteen shares of the total.
fn shares_of(weights: &[Weight; 16], total: Weight) -> [u32; 16]
    requires { TotalOf weights.now total.0 }
    ensures { result ≡ shares_of weights.now }
{
    std::array::from_fn(|i| shares::thousandths(weights[i], total))
}

// The largest difference of two lists of sixteen numbers.
#[tactic(auto, unfolding(crate::specs::BondEffects::largest_to, base::specs::Folds::fold_to))]
fn largest(before: &[u32; 16], after: &[u32; 16]) -> u32
    ensures { result ≡ largest_to 16 before.now after.now }
{
    (0..16usize).fold(0, |most, i| most.max(before[i].abs_diff(after[i])))
}

/// What a bond of `member` by `amount` does to the shares of the committee `weights`, of the total.
///
/// A member without weight joins. An empty committee is not handed in: `total` is above 0.
#[tactic(auto, using(crate::proofs::BondEffectLaws::after_bond), unfolding(crate::specs::BondEffects::bond_effect, terms::specs::Transactions::read_transaction))]
pub fn bond_effect(weights: [Weight; 16], total: Weight, member: Member, amount: u32) -> Effect
    requires { Bonds weights total.0 member.0 }
    ensures { result ≡ bond_effect member.0 amount weights }
{
    let before = shares_of(&weights, total);
    let mut bonded = weights;
    // kind 0 is a bond, and it is there
    change::apply(&mut bonded, true, 0, member.0, amount);
    let after = shares_of(&bonded, Weight(total.0 + amount as u64));
    Effect {
        before,
        after,
        largest: largest(&before, &after),
    }
}
