//! A committee as the calls ask it: its weights, with the margin that its quorums are by (docs/RULES.md, "Weights" to "Shares").

ghost use Rattle.std.specs.Prelude.{◌≡◌, if◌then◌else◌, not, ◌&&◌, ◌<◌, nat_lt};
ghost use Rattle.base.specs.Sets.{contains};
ghost use Rattle.agreement.specs.Weights.{weigh, total};
ghost use Rattle.terms.specs.Ranges.{weight_in};
ghost use Rattle.committee.specs.Committees.{MarginFits, bound_of, outsider, short, quorum};
ghost use Rattle.committee.specs.Leaders.{members};
ghost use Rattle.committee.specs.Shares.{share_of};
ghost use Rattle.committee.specs.Totals.{TotalBounded, HasShare};

use crate::shares;
use terms::Member;
use terms::sheet::Weight;

/// Sixteen weights, 0 for a non-member; their sum, a thousandfold, fits 64 bits.
#[derive(Debug, Clone, Copy)]
pub struct Committee {
    /// The weight of each member.
    pub weights: [Weight; 16],
    /// The margin of the settings, 3 to 5.
    pub margin: u32,
    pub ghost bounded: { TotalBounded weights },
    pub ghost divisor: { MarginFits margin },
}

/// The committees of a round and of the one before it.
#[derive(Debug, Clone, Copy)]
pub struct Committees {
    /// That of the round before.
    pub before: Committee,
    /// That of the round.
    pub at: Committee,
}

impl Committee {
    /// Is the member in the committee: has it a weight? Check 9, of one member.
    pub fn has_member(&self, member: Member) -> bool
        requires { member.0 < 16 }
        ensures { result ≡ members (weight_in self.now.weights) member.0 }
    {
        0 < self.weights[member.0 as usize].0
    }

    /// The total weight.
    #[tactic(auto, unfolding(base::specs::Folds::sum_to))]
    pub fn total(&self) -> Weight
        ensures { result.0 ≡ total 16 (weight_in self.now.weights) }
    {
        Weight((0..16usize).map(|i| self.weights[i].0).sum())
    }

    /// The fault bound: the whole part of the total less 1, divided by the margin; 0 of no weight.
    #[tactic(auto, unfolding(crate::specs::Committees::bound_of))]
    pub fn bound(&self) -> Weight
        ensures { result.0 ≡ bound_of self.now.margin (total 16 (weight_in self.now.weights)) }
    {
        Weight(self.total().0.saturating_sub(1) / self.margin as u64)
    }

    // What a member adds to the weight of a set.
    fn part(&self, set: u32, member: Member) -> Weight
        requires { member.0 < 16 }
        ensures { result.0
            ≡ (if contains set member.0 then weight_in self.now.weights member.0 else 0) }
    {
        if base::contains(set, member.0) {
            self.weights[member.0 as usize]
        } else {
            Weight(0)
        }
    }

    // The weight of a set of members. Who is outside the committee weighs nothing.
    #[tactic(auto, unfolding(base::specs::Folds::sum_to))]
    fn weight_of(&self, set: u32) -> Weight
        ensures { result.0 ≡ weigh 16 (weight_in self.now.weights) (contains set) }
    {
        Weight((0..16).map(|m| self.part(set, Member(m)).0).sum())
    }

    // Is the member in the set, and outside the committee?
    fn is_outsider(&self, set: u32, member: Member) -> bool
        requires { member.0 < 16 }
        ensures { result
            ≡ (contains set member.0 && not (nat_lt 0 (weight_in self.now.weights member.0))) }
    {
        base::contains(set, member.0) && !self.has_member(member)
    }

    /// Is somebody of the set outside the committee? Check 9, of signers.
    #[tactic(auto, unfolding(crate::specs::Committees::outsider, base::specs::Folds::any_to))]
    pub fn has_outsider(&self, set: u32) -> bool
        ensures { result ≡ outsider (weight_in self.now.weights) (contains set) }
    {
        (0..16).any(|m| self.is_outsider(set, Member(m)))
    }

    /// Does the set weigh less than a quorum: less than the total minus the fault bound? Check 13.
    #[tactic(auto, using(crate::proofs::CommitteeLaws::bounds), unfolding(crate::specs::Committees::short, crate::specs::Committees::quorum_weight))]
    pub fn is_short(&self, set: u32) -> bool
        ensures { result ≡ short self.now.margin (weight_in self.now.weights) (contains set) }
    {
        self.weight_of(set).0 < self.total().0 - self.bound().0
    }

    /// Is the set a quorum: nobody outside the committee, and of enough weight?
    #[tactic(auto, unfolding(crate::specs::Committees::quorum))]
    pub fn has_quorum(&self, set: u32) -> bool
        ensures { result ≡ quorum self.now.margin (weight_in self.now.weights) (contains set) }
    {
        !self.has_outsider(set) && !self.is_short(set)
    }

    /// A member's share: its weight in thousandths of the total, to the nearest, an exact half to the even neighbour.
    ///
    /// The member has a weight, so the total is above 0.
    #[tactic(auto, using(crate::proofs::CommitteeLaws::part_of_share))]
    pub fn share(&self, member: Member) -> u32
        requires { HasShare self.now.weights member.0 }
        ensures { result ≡ share_of (weight_in self.now.weights member.0)
            (total 16 (weight_in self.now.weights)) }
    {
        shares::thousandths(self.weights[member.0 as usize], self.total())
    }
}
