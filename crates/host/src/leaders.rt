//! Who leads a round, by the weights of its committee.
#![tactic(auto)]

ghost use Rattle.std.specs.Prelude.{◌≡◌, unwrap_or};
ghost use Rattle.base.specs.Folds.{tab};
ghost use Rattle.committee.specs.Leaders.{leader_of};
ghost use Rattle.terms.specs.Ranges.{weight};
ghost use Rattle.words.specs.Words.{word};

use terms::Round;
use terms::sheet::Weight;

// The weight at a place of the words, 0 for one that is not there.
fn weight_at(words: &[u32], place: usize) -> Weight
    ensures { result ≡ weight (word words.now place) }
{
    if place < words.len() {
        Weight(words[place] as u64)
    } else {
        Weight(0)
    }
}

// Sixteen weights, of the words.
fn weights_in(words: &[u32]) -> [Weight; 16]
    ensures { result ≡ tab (λ i. weight (word words.now i)) 16 }
{
    std::array::from_fn(|i| weight_at(words, i))
}

/// The leader of a round, by sixteen weights, a word each, 0 for one who is no member: of the members by rising number the one at position (`round` / 2) mod their number, counted from 0. 16 for none: an odd round, round 0 and an empty committee have none. Words behind the sixteenth are not looked at, and one that is not there counts as 0. docs/RULES.md, "Leader and anchor".
#[unsafe(no_mangle)]
pub extern "C" fn forgelilac_leader_of(round: u32, weights: &[u32]) -> u32
    ensures { result ≡ unwrap_or (leader_of (word weights.now) round) 16 }
{
    committee::leader::leader(&weights_in(weights), Round(round)).0
}
