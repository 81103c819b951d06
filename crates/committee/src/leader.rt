//! The leader of a round.
ghost use Rattle.std.specs.Prelude.{◌≡◌, ◌<◌, unwrap_or};
ghost use Rattle.base.specs.Sets.{contains};
ghost use Rattle.terms.specs.Ranges.{weight_in};
ghost use Rattle.committee.specs.Positions.{count_below};
ghost use Rattle.committee.specs.Leaders.{member_at, joined, member_set, leader_of};

use crate::positions;
use terms::sheet::Weight;
use terms::{Member, Round};

// The set, with the member if it has a weight.
#[tactic(auto, unfolding(crate::specs::Leaders::joined))]
fn join(weights: &[Weight; 16], set: u32, member: Member) -> u32
    requires { member.0 < 16 }
    ensures { result ≡ joined weights.now member.0 set }
{
    if 0 < weights[member.0 as usize].0 {
        base::insert(set, member.0)
    } else {
        set
    }
}

// The members of a committee, as a set.
#[tactic(auto, unfolding(crate::specs::Leaders::member_set, base::specs::Folds::fold_to))]
fn member_set(weights: &[Weight; 16]) -> u32
    ensures { result ≡ member_set weights.now }
{
    (0..16).fold(0, |set, m| join(weights, set, Member(m)))
}

// How many are in the set.
#[tactic(auto, using(crate::proofs::HalfLaws::set_ones))]
fn size(set: u32) -> u32
    ensures { result ≡ count_below (contains set) 16 }
{
    u32::count_ones(set % 65536)
}

/// The member at `position` of the set, counted from 0 by rising number; 16 for none. The upper half uses the same table as the lower one.
#[tactic(auto, using(crate::proofs::HalfLaws::at_low, crate::proofs::HalfLaws::at_high, crate::proofs::HalfLaws::at_beyond))]
pub fn member_at(set: u32, position: u32) -> Member
    ensures { result.0 ≡ unwrap_or (member_at (contains set) position) 16 }
{
    let low = set % 256;
    let count = u32::count_ones(low);
    if position < count {
        Member(positions::member_in(low, position))
    } else if position < count + 8 {
        Member(8 + positions::member_in(set / 256 % 256, position - count))
    } else {
        Member(16)
    }
}

/// The leader of `round` in the committee `weights`, 16 for none: the member at position (`round` / 2) mod their count, counted from 0 by rising number.
///
/// Round 0, an odd round and an empty committee have none. What the members weigh does not matter.
#[tactic(auto, using(crate::proofs::LeaderLaws::leader_cases))]
pub fn leader(weights: &[Weight; 16], round: Round) -> Member
    ensures { result.0 ≡ unwrap_or (leader_of (weight_in weights.now) round) 16 }
{
    if round.0 % 2 != 0 || round.0 < 2 {
        return Member(16);
    }
    let set = member_set(weights);
    let count = size(set);
    if count == 0 {
        Member(16)
    } else {
        member_at(set, round.0 / 2 % count)
    }
}
