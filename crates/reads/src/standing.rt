//! The reads of a committee and of a share in it. They change nothing.

ghost use Rattle.std.specs.Prelude.{◌≡◌, IfOk};
ghost use Rattle.rules.specs.Reads.{committee_read, share_read};
ghost use Rattle.state.specs.View.{view};
ghost use Rattle.refusals.specs.Refusals.{refusal_in};
ghost use Rattle.member_view.specs.Views.{settings_of, shown};
ghost use Rattle.reads.specs.Reads.{committee_refusal, share_refusal};

use member_view::View;
use refusals::Refusal;
use state::State;
use terms::sheet::Weight;
use terms::{Member, Round};

/// The committee of a round, of a state that is known to be well formed. Checks 5 and 8, in this order.
#[tactic(auto, unfolding(base::specs::Checks::refusal, crate::specs::Reads::committee_refusal))]
pub fn committee_of(view: &View, round: Round) -> Result<[Weight; 16], Refusal>
    ensures refusal { refusal_in result
        ≡ committee_refusal view.now.state.now view.now.table.now round }
    ensures value { IfOk result (λ w. w
        ≡ committee_read (settings_of view.now) (shown view.now) round) }
{
    if view.is_bad_round(round) {
        return Err(Refusal::RoundRange);
    }
    if view.is_unknown(round) {
        return Err(Refusal::CommitteeUnknown);
    }
    Ok(view.committee(round).weights)
}

/// The committee of a round: sixteen weights, 0 for a non-member. Checks 1, 5 and 8, in this order.
#[tactic(auto, unfolding(base::specs::Checks::refusal, crate::specs::Reads::committee_refusal))]
pub fn committee(state: &State, table: &[u32], round: Round) -> Result<[Weight; 16], Refusal>
    ensures refusal { refusal_in result ≡ committee_refusal state.now table.now round }
    ensures value { IfOk result (λ w. w
        ≡ committee_read state.now.settings (view state.now table.now) round) }
{
    committee_of(
        &View::known(state::well_formed(state, table), &[], state, table)?,
        round,
    )
}

/// A member's share in the committee of a round, in thousandths, of a state that is known to be well formed. Checks 4, 5, 8 and 9, in this order.
#[tactic(auto, unfolding(base::specs::Checks::refusal, crate::specs::Reads::share_refusal))]
pub fn share_of(view: &View, member: Member, round: Round) -> Result<u32, Refusal>
    ensures refusal { refusal_in result
        ≡ share_refusal view.now.state.now view.now.table.now member.0 round }
    ensures value { IfOk result (λ n. n ≡ share_read (settings_of view.now) (shown view.now)
        member.0 round) }
{
    if 15 < member.0 {
        return Err(Refusal::MemberRange);
    }
    if view.is_bad_round(round) {
        return Err(Refusal::RoundRange);
    }
    if view.is_unknown(round) {
        return Err(Refusal::CommitteeUnknown);
    }
    let committee = view.committee(round);
    if !committee.has_member(member) {
        return Err(Refusal::Outside);
    }
    Ok(committee.share(member))
}

/// A member's share in the committee of a round, in thousandths. Checks 1, 4, 5, 8 and 9, in this order.
#[tactic(auto, unfolding(base::specs::Checks::refusal, crate::specs::Reads::share_refusal))]
pub fn share(state: &State, table: &[u32], member: Member, round: Round) -> Result<u32, Refusal>
    ensures refusal { refusal_in result ≡ share_refusal state.now table.now member.0 round }
    ensures value { IfOk result (λ n. n ≡ share_read state.now.settings (view state.now table.now)
        member.0 round) }
{
    share_of(
        &View::known(state::well_formed(state, table), &[], state, table)?,
        member,
        round,
    )
}
