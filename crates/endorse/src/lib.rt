//! Endorse: the place of a proposal is marked endorsed.
//!
//! One's own membership is not tested. One bit of the table changes, or nothing (specs/Endorse). docs/RULES.md, "Endorse".
#![tactic(auto)]

ghost use Rattle.std.specs.Prelude.{◌≡◌, OnOk};
ghost use Rattle.base.specs.Checks.{refusal};
ghost use Rattle.terms.specs.Proposals.{content_of};
ghost use Rattle.rules.specs.Calls.{endorsing};
ghost use Rattle.refusals.specs.Refusals.{refusal_in};
ghost use Rattle.state.specs.Cached.{Cached};
ghost use Rattle.state.specs.SharedChecks.{FormFits};
ghost use Rattle.member_view.specs.Views.{settings_of, shown};
ghost use Rattle.endorse.specs.Endorse.{endorse_refusal, endorse_table};

use member_view::View;
use refusals::Refusal;
use state::State;
use store::writes;
use terms::Proposal;

// The checks of a well-formed state: 4, 5, 6, 7, 14, 10, 8, 11, 12.
#[tactic(auto, unfolding(base::specs::Checks::refusal))]
fn check(view: &View, proposal: Proposal) -> Result<(), Refusal>
    ensures refusal { refusal_in result
        ≡ refusal (endorsing (settings_of view.now) view.now.state.now.own.0 (shown view.now)
        (content_of proposal)) }
    ensures fits { OnOk result (FormFits view.now.state.now proposal) }
{
    view.check_form(proposal)?;
    if proposal.author == view.state.own {
        return Err(Refusal::SignedTwice);
    }
    if view.is_taken(proposal.author, proposal.round) {
        return Err(Refusal::PlaceTaken);
    }
    if view.is_unknown_before(proposal.round) {
        return Err(Refusal::CommitteeUnknown);
    }
    if view.lacks_previous(proposal) {
        return Err(Refusal::PreviousMissing);
    }
    if view.lacks_quorum(proposal) {
        return Err(Refusal::PreviousQuorum);
    }
    Ok(())
}

/// The call, where it is told whether the state is well formed, and committees may be cached.
#[tactic(auto, unfolding(base::specs::Checks::refusal, state::specs::Refusals::refusal_of, state::specs::Answers::if_accepted, crate::specs::Endorse::endorse_refusal, crate::specs::Endorse::endorse_table))]
pub fn endorse_cached(
    formed: bool,
    cache: &[u64],
    state: &State,
    table: &mut [u32],
    proposal: Proposal,
) -> Result<(), Refusal>
    requires { Cached state.now table.old formed cache.now }
    ensures refusal { refusal_in result ≡ endorse_refusal state.now table.old proposal }
    ensures table { table.new ≡ endorse_table state.now table.old proposal }
{
    check(&View::known(formed, cache, state, table)?, proposal)?;
    writes::set_endorsed(table, proposal.author, proposal.round);
    Ok(())
}

/// Marks the place of a proposal endorsed.
pub fn endorse(state: &State, table: &mut [u32], proposal: Proposal) -> Result<(), Refusal>
    ensures refusal { refusal_in result ≡ endorse_refusal state.now table.old proposal }
    ensures table { table.new ≡ endorse_table state.now table.old proposal }
{
    endorse_cached(
        state::well_formed(state, table),
        &[],
        state,
        table,
        proposal,
    )
}
