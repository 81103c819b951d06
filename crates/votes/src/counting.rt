// The votes for an anchor: held certificates of the round above that name its author as previous.
ghost use Rattle.std.specs.Prelude.{◌≡◌, if◌then◌else◌, ◌<◌};
ghost use Rattle.store.specs.Table.{Within};
ghost use Rattle.terms.specs.Ranges.{weight_in};
ghost use Rattle.votes.specs.Votes.{votes_at, votes_for};
ghost use Rattle.votes.specs.Ready.{VotesReady};

use terms::sheet::Weight;
use terms::{Member, Round};

/// What member `voter` votes in `round` for the certificate of `author`: its weight, if its own certificate is held and names `author`, and else 0.
#[tactic(auto, unfolding(crate::specs::Votes::votes_at))]
pub fn vote_of(
    table: &[u32],
    weights: &[Weight; 16],
    round: Round,
    author: Member,
    voter: Member,
) -> Weight
    requires { Within table.now voter.0 round × (author.0 < 16) }
    ensures { result.0 ≡ (if votes_at table.now round author.0 voter.0
        then weight_in weights.now voter.0 else 0) }
{
    if store::held(table, voter, round)
        && base::contains(store::record::previous(table, voter, round), author.0)
    {
        weights[voter.0 as usize]
    } else {
        Weight(0)
    }
}

/// The weight of all votes of `round` for the certificate of `author`.
#[tactic(auto, unfolding(crate::specs::Votes::votes_for, base::specs::Folds::sum_to))]
pub fn votes_for(table: &[u32], weights: &[Weight; 16], round: Round, author: Member) -> Weight
    requires { VotesReady table.now weights.now round author.0 }
    ensures { result.0 ≡ votes_for table.now weights.now round author.0 }
{
    Weight(
        (0..16)
            .map(|i| vote_of(table, weights, round, author, Member(i)).0)
            .sum(),
    )
}
