//! Certify: one's proposal becomes a certificate.
//!
//! It is held with its endorsers, and the proposal stays (specs/Certify). docs/RULES.md, "Certify".
#![tactic(auto)]

ghost use Rattle.std.specs.Prelude.{◌≡◌, IfOk};
ghost use Rattle.base.specs.Checks.{refusal};
ghost use Rattle.terms.specs.Proposals.{content_of, content_with};
ghost use Rattle.rules.specs.Calls.{certifying};
ghost use Rattle.refusals.specs.Refusals.{refusal_in};
ghost use Rattle.state.specs.Cached.{Cached};
ghost use Rattle.state.specs.SharedChecks.{FormFits};
ghost use Rattle.state.specs.States.{own_body};
ghost use Rattle.member_view.specs.Views.{settings_of, shown};
ghost use Rattle.certify.specs.Certify.{certify_refusal, certify_table};

use member_view::View;
use refusals::Refusal;
use state::State;
use store::writes;
use terms::Proposal;

// The checks of a well-formed state: 15, 10, 14, 8, 9, 13; and one's own proposal.
#[tactic(auto, unfolding(base::specs::Checks::refusal, rules::specs::Tests::signers_of, state::specs::View::own_proposal))]
fn check(view: &View, endorsers: u32) -> Result<Proposal, Refusal>
    ensures refusal { refusal_in result
        ≡ refusal (certifying (settings_of view.now) view.now.state.now.own.0 (shown view.now)
        endorsers (shown view.now).proposal) }
    ensures value { IfOk result (λ p. content_of p ≡ (let s = view.now.state.now in
        content_with s.own.0 s.round (own_body s))) }
    ensures fits { IfOk result (FormFits view.now.state.now) }
{
    let author = view.state.own;
    let round = view.state.round;
    let Some(body) = view.state.proposal else {
        return Err(Refusal::NoProposal);
    };
    if view.is_held(author, round) {
        return Err(Refusal::PlaceTaken);
    }
    if base::contains(endorsers, author.0) {
        return Err(Refusal::SignedTwice);
    }
    if view.is_unknown(round) {
        return Err(Refusal::CommitteeUnknown);
    }
    let signers = base::insert(endorsers, author.0);
    let committee = view.committee(round);
    if committee.has_outsider(signers) {
        return Err(Refusal::Outside);
    }
    if committee.is_short(signers) {
        return Err(Refusal::SignersShort);
    }
    Ok(Proposal {
        author,
        round,
        body,
    })
}

/// The call, where it is told whether the state is well formed, and committees may be cached.
#[tactic(auto, unfolding(base::specs::Checks::refusal, state::specs::Refusals::refusal_of, state::specs::Answers::if_accepted, crate::specs::Certify::certify_refusal, crate::specs::Certify::certify_table))]
pub fn certify_cached(
    formed: bool,
    cache: &[u64],
    state: &State,
    table: &mut [u32],
    endorsers: u16,
) -> Result<(), Refusal>
    requires { Cached state.now table.old formed cache.now }
    ensures refusal { refusal_in result ≡ certify_refusal state.now table.old endorsers }
    ensures table { table.new ≡ certify_table state.now table.old endorsers }
{
    let proposal = check(&View::known(formed, cache, state, table)?, endorsers as u32)?;
    writes::put_certificate(table, proposal, endorsers);
    Ok(())
}

/// Holds one's own proposal as a certificate, with its endorsers.
pub fn certify(state: &State, table: &mut [u32], endorsers: u16) -> Result<(), Refusal>
    ensures refusal { refusal_in result ≡ certify_refusal state.now table.old endorsers }
    ensures table { table.new ≡ certify_table state.now table.old endorsers }
{
    certify_cached(
        state::well_formed(state, table),
        &[],
        state,
        table,
        endorsers,
    )
}
