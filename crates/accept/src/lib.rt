//! Accept: a certificate is held with its endorsers.
//!
//! Its endorsed mark is cleared. The checks are `admission`'s; what is left of state and table is the certificate's place and its two marks (specs/Accept). docs/RULES.md, "Accept".
#![tactic(auto)]

pub mod admission;
pub mod theorems;

ghost use Rattle.std.specs.Prelude.{◌≡◌};
ghost use Rattle.refusals.specs.Refusals.{refusal_in};
ghost use Rattle.state.specs.Cached.{Cached};
ghost use Rattle.accept.specs.Accept.{accept_refusal, accept_table};

use chain_committees::cache;
use member_view::View;
use refusals::Refusal;
use state::State;
use store::{clearing, writes};
use terms::Certificate;

/// The call, where it is told whether the state is well formed, and committees may be cached.
#[tactic(auto, unfolding(base::specs::Checks::refusal, state::specs::Refusals::refusal_of, state::specs::Answers::if_accepted, crate::specs::Accept::accept_refusal, crate::specs::Accept::accept_table))]
pub fn accept_cached(
    formed: bool,
    cache: &[u64],
    state: &State,
    table: &mut [u32],
    certificate: Certificate,
) -> Result<(), Refusal>
    requires { Cached state.now table.old formed cache.now }
    ensures refusal { refusal_in result ≡ accept_refusal state.now table.old certificate }
    ensures table { table.new ≡ accept_table state.now table.old certificate }
{
    let proposal = certificate.proposal;
    let endorsers = certificate.endorsers;
    admission::check(
        &View::known(formed, cache, state, table)?,
        proposal,
        endorsers as u32,
    )?;
    writes::put_certificate(table, proposal, endorsers);
    clearing::clear_endorsed(table, proposal.author, proposal.round);
    Ok(())
}

/// Holds a certificate with its endorsers, and clears its endorsed mark.
#[tactic(auto, using(crate::proofs::AdmissionRules::cached_far))]
pub fn accept(state: &State, table: &mut [u32], certificate: Certificate) -> Result<(), Refusal>
    ensures refusal { refusal_in result ≡ accept_refusal state.now table.old certificate }
    ensures table { table.new ≡ accept_table state.now table.old certificate }
{
    let formed = state::well_formed(state, table);
    let mut cache = [cache::NO_ROUND; cache::ONE_ROUND];
    admission::cache_committees(formed, state, table, &certificate, &mut cache);
    accept_cached(formed, &cache, state, table, certificate)
}
