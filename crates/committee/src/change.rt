//! What transactions do to the weights of a committee: each weight by sums and products, since kinds come in any order and a branch would be guessed wrong.
ghost use Rattle.std.specs.Prelude.{◌≡◌, if◌then◌else◌, ◌*◌, ◌^◌, ◌≤◌};
ghost use Rattle.terms.specs.Transactions.{read_transaction};
ghost use Rattle.committee.specs.Changes.{change};
ghost use Rattle.committee.specs.WeightEffects.{effect_of, weight_after};
ghost use Rattle.committee.specs.Totals.{total_in};

use terms::sheet::Weight;

// The effect of three words on a weight: 0 a bond's, 1 an unbond's, 2 none.
#[tactic(auto, unfolding(crate::specs::WeightEffects::effect_of))]
fn effect(there: bool, kind: u32, number: u32) -> u32
    ensures { (result ≡ effect_of there kind number) × (result ≤ 2) }
{
    if there && number < 16 { kind.min(2) } else { 2 }
}

// All of `weight`, or nothing.
fn times(weight: Weight, factor: u32) -> Weight
    requires { factor ≤ 1 }
    ensures { (result.0 ≡ weight.0 * factor) × (result.0 ≤ weight.0) }
{
    Weight(weight.0 * factor as u64)
}

// The weight after an effect: an unbond removes it, then a bond adds its amount.
fn weight_after(effect: u32, amount: u32, weight: Weight) -> Weight
    requires { (effect ≤ 2) × (weight.0 ≤ 2 ^ 62) }
    ensures { result.0 ≡ weight_after effect amount weight.0 }
{
    let kept = times(weight, 1 - effect % 2);
    let added = times(Weight(amount as u64), (2 - effect) / 2);
    Weight(kept.0 + added.0)
}

/// Applies to the weights the transaction that three words tell, if it is there: a bond adds its amount, an unbond leaves 0, an entry changes nothing.
///
/// A number above 15 is no member's and changes nothing either. The weights are light enough for no sum to overflow.
#[tactic(auto, using(crate::proofs::EffectLaws::effect_changes, crate::proofs::TotalLaws::weight_le))]
pub fn apply(weights: &mut [Weight; 16], there: bool, kind: u32, number: u32, amount: u32)
    requires { total_in weights.old ≤ 2 ^ 62 }
    ensures { weights.new ≡ (if there then change (read_transaction kind number amount) weights.old
        else weights.old) }
{
    let e = effect(there, kind, number);
    let place = (number % 16) as usize;
    weights[place] = weight_after(e, amount, weights[place]);
}
