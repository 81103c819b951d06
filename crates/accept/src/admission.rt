//! The checks of an accept, and the committees cached for them.

ghost use Rattle.std.specs.Prelude.{◌≡◌, true, ◌≤◌, ◌<◌, OnOk};
ghost use Rattle.base.specs.Checks.{refusal};
ghost use Rattle.base.specs.Sets.{contains};
ghost use Rattle.terms.specs.Proposals.{content_of};
ghost use Rattle.rules.specs.Calls.{accepting};
ghost use Rattle.rules.specs.Tests.{is_same, signers_of};
ghost use Rattle.refusals.specs.Refusals.{refusal_in};
ghost use Rattle.state.specs.Cached.{Cached};
ghost use Rattle.state.specs.SharedChecks.{FormFits};
ghost use Rattle.member_view.specs.Views.{settings_of, shown};

use chain_committees::chain::Chain;
use chain_committees::{bonded, cache};
use member_view::View;
use refusals::Refusal;
use state::State;
use terms::{Certificate, Proposal};

// Check 16: is the same certificate held?
#[tactic(auto, using(crate::proofs::AdmissionRules::same))]
fn holds_same(view: &View, proposal: Proposal) -> bool
    requires place { proposal.author.0 < 16 }
    requires from { 0 < proposal.round }
    requires to { proposal.round ≤ (settings_of view.now).ceiling }
    ensures { result
        ≡ is_same (content_of proposal) ((shown view.now).dag proposal.author.0 proposal.round) }
{
    store::held(view.table, proposal.author, proposal.round)
        && store::record::is_same(view.table, proposal)
}

// Check 14: is the author among the endorsers?
fn is_signed_twice(proposal: &Proposal, endorsers: u32) -> bool
    requires { proposal.now.author.0 < 16 }
    ensures { result ≡ contains endorsers proposal.now.author.0 }
{
    base::contains(endorsers, proposal.author.0)
}

// The author and the endorsers.
#[tactic(auto, unfolding(rules::specs::Tests::signers_of))]
fn signers(proposal: &Proposal, endorsers: u32) -> u32
    requires { proposal.now.author.0 < 16 }
    ensures { result ≡ signers_of (content_of proposal.now) endorsers }
{
    base::insert(endorsers, proposal.author.0)
}

/// The checks of a well-formed state, in this order: 4, 5, 6, 7, 14, 16, 17, 8, 9, 13, 11.
#[tactic(auto, unfolding(base::specs::Checks::refusal))]
pub(crate) fn check(view: &View, proposal: Proposal, endorsers: u32) -> Result<(), Refusal>
    ensures refusal { refusal_in result
        ≡ refusal (accepting (settings_of view.now) (shown view.now) (content_of proposal)
        endorsers) }
    ensures fits { OnOk result (FormFits view.now.state.now proposal) }
{
    view.check_form(proposal)?;
    if is_signed_twice(&proposal, endorsers) {
        return Err(Refusal::SignedTwice);
    }
    if holds_same(view, proposal) {
        return Err(Refusal::SameHeld);
    }
    if view.is_held(proposal.author, proposal.round) {
        return Err(Refusal::OtherHeld);
    }
    if view.is_unknown(proposal.round) {
        return Err(Refusal::CommitteeUnknown);
    }
    let signers = signers(&proposal, endorsers);
    let committee = view.committee(proposal.round);
    if committee.has_outsider(signers) {
        return Err(Refusal::Outside);
    }
    if committee.is_short(signers) {
        return Err(Refusal::SignersShort);
    }
    if view.lacks_previous(proposal) {
        return Err(Refusal::PreviousMissing);
    }
    Ok(())
}

// Will the checks ask for a committee that is not cached, and that some block changes?
fn asks_committee(view: &View, certificate: &Certificate) -> bool
    ensures { result ≡ true → certificate.now.proposal.round ≤ (settings_of view.now).ceiling }
{
    let proposal = certificate.proposal;
    let author = proposal.author;
    let round = proposal.round;
    if cache::is_cached(view.cache, view.state.settings.ceiling, round)
        || view.check_form(proposal).is_err()
    {
        return false;
    }
    !base::contains(certificate.endorsers as u32, author.0)
        && !view.is_held(author, round)
        && !view.is_unknown(round)
        && !bonded::is_starting(view.chain(), round)
}

/// Caches committees from the round of a certificate on, as far as there is room, where the checks will ask for one that is not there.
#[tactic(auto, using(crate::proofs::AdmissionRules::cached))]
pub fn cache_committees<'a>(
    formed: bool,
    state: &'a State,
    table: &'a [u32],
    certificate: &Certificate,
    cache: &mut [u64],
)
    requires { Cached state.now table.now formed cache.old }
    ensures { Cached state.now table.now formed cache.new }
{
    let Ok(view) = View::known(formed, cache, state, table) else {
        return;
    };
    if asks_committee(&view, certificate) {
        let chain = Chain::new(table, &state.settings, state.blocks);
        cache::fill_cache(chain, certificate.proposal.round, cache);
    }
}
