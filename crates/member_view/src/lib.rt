//! A member's view, and the tests that rules make of it.
//!
//! A state that was found well formed, its table and what is cached beside them. Each method is one test of a call, and answers what the rules' test of it says (rules/specs/Tests): `lacks_previous` is `missing` there and `lacks_quorum` is `too_few_previous`, both above round 1. docs/RULES.md, "A member's state".
#![tactic(auto)]

ghost use Rattle.std.specs.Prelude.{◌≡◌, true};
ghost use Rattle.state.specs.WellFormed.{well_formed};
ghost use Rattle.state.specs.Formed.{Formed};
ghost use Rattle.state.specs.Cached.{CachesFor};

use chain_committees::chain::Chain;
use chain_committees::{bonded, cache};
use committee::committees::{Committee, Committees};
use refusals::Refusal;
use state::State;
use terms::{Body, Member, Proposal, Round};

/// A state and its table, and what is cached beside them: committees of theirs.
///
/// State and table are well formed: `known` tells. The tests here rely on less, that all but the serial ports is (`Formed`, state/specs/Formed).
#[derive(Debug, Clone, Copy)]
pub struct View<'a> {
    /// The member's state.
    pub state: &'a State,
    /// Its table.
    pub table: &'a [u32],
    /// Committees that were worked out before, or nothing.
    pub cache: &'a [u64],
    ghost known: { well_formed state.now table.now ≡ true },
    ghost formed: { Formed state.now table.now },
    ghost caches: { CachesFor state.now table.now cache.now },
}

impl<'a> View<'a> {
    ghost use Rattle.std.specs.Prelude.{◌≡◌, false, not, ◌||◌, ◌-◌, ◌≤◌, ◌<◌, IfOk, IfErr, OnOk};
    ghost use Rattle.agreement.specs.Dag.{is_held};
    ghost use Rattle.base.specs.Checks.{refusal};
    ghost use Rattle.base.specs.Sets.{contains};
    ghost use Rattle.terms.specs.Ranges.{weight_in};
    ghost use Rattle.terms.specs.Proposals.{content_of, content_with, bad_transactions, bad_previous_set, transactions_of};
    ghost use Rattle.committee.specs.Committees.{quorum, committee_of};
    ghost use Rattle.rules.specs.Tests.{bad_round, above, missing, too_few_previous, unknown, committee_in, authors_in};
    ghost use Rattle.state.specs.Cached.{Cached};
    ghost use Rattle.state.specs.SharedChecks.{FormFits, form_checks};
    ghost use Rattle.refusals.specs.Refusals.{refusal_in};
    ghost use Rattle.member_view.specs.Views.{settings_of, shown};

    /// Check 1 of every call but open, where it is known whether the state is well formed, and committees may be cached.
    #[tactic(auto, using(crate::proofs::ViewRules::cached))]
    pub fn known(
        formed: bool,
        cache: &'a [u64],
        state: &'a State,
        table: &'a [u32],
    ) -> Result<View<'a>, Refusal>
        requires { Cached state.now table.now formed cache.now }
        ensures ok { IfOk result (λ v. (v.state.now ≡ state.now) × (v.table.now ≡ table.now)
            × (well_formed state.now table.now ≡ true)) }
        ensures err { IfErr result (λ e. (e ≡ Refusal.Malformed)
            × (well_formed state.now table.now ≡ false)) }
    {
        if !formed {
            return Err(Refusal::Malformed);
        }
        Ok(View {
            state,
            table,
            cache,
        })
    }

    /// Check 5: is the round 0 or over the ceiling?
    #[tactic(auto, unfolding(rules::specs::Tests::bad_round))]
    pub fn is_bad_round(&self, round: Round) -> bool
        ensures { result ≡ bad_round (settings_of self.now) round }
    {
        let ceiling = self.state.settings.ceiling;
        round.0 == 0 || ceiling.0 < round.0
    }

    /// Check 6: is a transaction out of range, or are there too many?
    pub fn has_bad_transactions(&self, body: Body) -> bool
        ensures { result ≡ bad_transactions (settings_of self.now).allowance
            (transactions_of body) }
    {
        terms::has_bad_transactions(self.state.settings.allowance, body)
    }

    /// The chain of the table, whole.
    #[tactic(auto, using(state::proofs::Walkable::readable))]
    pub fn chain(&self) -> Chain<'a>
        ensures table { result.table.now ≡ self.now.table.now }
        ensures settings { result.settings.now ≡ settings_of self.now }
        ensures blocks { result.blocks ≡ self.now.state.now.blocks }
    {
        Chain::new(self.table, &self.state.settings, self.state.blocks)
    }

    /// Check 8: is the committee of the round unknown?
    #[tactic(auto, unfolding(rules::specs::Tests::unknown))]
    pub fn is_unknown(&self, round: Round) -> bool
        ensures { result ≡ unknown (settings_of self.now) (shown self.now) round }
    {
        !bonded::known(self.chain(), round)
    }

    /// Check 8 of an endorsement: above round 1, is the committee of the round before unknown?
    #[tactic(auto, unfolding(rules::specs::Tests::above))]
    pub fn is_unknown_before(&self, round: Round) -> bool
        requires { 0 < round }
        ensures { result
            ≡ above round (unknown (settings_of self.now) (shown self.now) (round - 1)) }
    {
        round.0 != 1 && self.is_unknown(Round(round.0 - 1))
    }

    /// The committee of a round.
    pub fn committee(&self, round: Round) -> Committee
        ensures weights { result.weights
            ≡ committee_of (settings_of self.now) (shown self.now).chain round }
        ensures margin { result.margin ≡ (settings_of self.now).margin }
    {
        cache::committee(self.cache, self.chain(), round)
    }

    /// The committees of a round and of the one before, by one walk.
    pub fn committees(&self, round: Round) -> Committees
        ensures at { result.at.weights
            ≡ committee_of (settings_of self.now) (shown self.now).chain round }
        ensures before { result.before.weights
            ≡ committee_of (settings_of self.now) (shown self.now).chain (round - 1) }
        ensures margin_at { result.at.margin ≡ (settings_of self.now).margin }
        ensures margin_before { result.before.margin ≡ (settings_of self.now).margin }
    {
        cache::committees(self.cache, self.chain(), round)
    }

    /// Is the member's place of the round held?
    #[tactic(auto, using(crate::proofs::ViewRules::held))]
    pub fn is_held(&self, member: Member, round: Round) -> bool
        requires place { member.0 < 16 }
        requires from { 0 < round }
        requires to { round ≤ (settings_of self.now).ceiling }
        ensures { result ≡ is_held ((shown self.now).dag member.0 round) }
    {
        store::held(self.table, member, round)
    }

    /// Check 10 of an endorsement: is the member's place of the round held or already endorsed?
    #[tactic(auto, using(crate::proofs::ViewRules::endorsed))]
    pub fn is_taken(&self, member: Member, round: Round) -> bool
        requires place { member.0 < 16 }
        requires from { 0 < round }
        requires to { round ≤ (settings_of self.now).ceiling }
        ensures { result ≡ (is_held ((shown self.now).dag member.0 round)
            || (shown self.now).endorsed member.0 round) }
    {
        self.is_held(member, round) || store::endorsed(self.table, member, round)
    }

    /// Check 28: do the authors of the certificates held in the present round form no quorum of its committee?
    #[tactic(auto, using(crate::proofs::AuthorLaws::thin_by))]
    pub fn is_thin(&self) -> bool
        ensures { let v = self.now in
            result
            ≡ not
            (quorum (settings_of v).margin (committee_in (settings_of v) (shown v)
            (shown v).round) (authors_in (settings_of v) (shown v) (shown v).round)) }
    {
        let round = self.state.round;
        !self
            .committee(round)
            .has_quorum(store::held_set(self.table, round))
    }

    /// Check 10 of propose: is there a proposal, or is one's own place held?
    #[tactic(auto, using(crate::proofs::ViewRules::proposing))]
    pub fn has_proposed(&self) -> bool
        ensures { let v = self.now in
            result ≡ (is_held (shown v).proposal
            || is_held ((shown v).dag v.state.now.own.0 (shown v).round)) }
    {
        self.state.proposal.is_some() || self.is_held(self.state.own, self.state.round)
    }

    /// Check 11: above round 1, is a named previous certificate not held?
    #[tactic(auto, using(crate::proofs::ViewRules::lacking))]
    pub fn lacks_previous(&self, proposal: Proposal) -> bool
        requires from { 0 < proposal.round }
        requires to { proposal.round ≤ (settings_of self.now).ceiling }
        ensures { result
            ≡ above proposal.round (missing (settings_of self.now) (shown self.now)
            (content_of proposal)) }
    {
        let round = proposal.round;
        round.0 != 1
            && !base::is_subset(
                proposal.body.previous as u32,
                store::held_set(self.table, Round(round.0 - 1)),
            )
    }

    /// Check 12: above round 1, is the previous set no quorum of the round before?
    #[tactic(auto, unfolding(rules::specs::Tests::above))]
    pub fn lacks_quorum(&self, proposal: Proposal) -> bool
        requires { 0 < proposal.round }
        ensures { result ≡ too_few_previous (settings_of self.now) (shown self.now)
            (content_of proposal) }
    {
        proposal.round.0 != 1
            && !self
                .committee(Round(proposal.round.0 - 1))
                .has_quorum(proposal.body.previous as u32)
    }

    /// Checks 4, 5, 6, 7 of a proposal.
    #[tactic(auto, using(crate::proofs::ViewRules::form_fits), unfolding(base::specs::Checks::refusal))]
    pub fn check_form(&self, proposal: Proposal) -> Result<(), Refusal>
        ensures refusal { refusal_in result
            ≡ refusal (form_checks (settings_of self.now) (content_of proposal)) }
        ensures fits { OnOk result (FormFits self.now.state.now proposal) }
    {
        if 15 < proposal.author.0 {
            return Err(Refusal::MemberRange);
        }
        if self.is_bad_round(proposal.round) {
            return Err(Refusal::RoundRange);
        }
        if self.has_bad_transactions(proposal.body) {
            return Err(Refusal::TransactionsRange);
        }
        if terms::is_bad_previous_set(proposal.round, proposal.body.previous as u32) {
            return Err(Refusal::PreviousEmpty);
        }
        Ok(())
    }
}
