//! The journal of a chain is what its listing shows, and weights add up.

ghost use Rattle.std.specs.Prelude.{[], ◌≡◌};
ghost use Rattle.agreement.specs.Listing.{listing};
ghost use Rattle.agreement.specs.Rules.{Chain};
ghost use Rattle.balance.specs.Balance.{AddsUp};
ghost use Rattle.balance.specs.Ledger.{entered, journal, listed_transactions};
ghost use Rattle.committee.specs.Committees.{ordered};
ghost use Rattle.engine.specs.Engine.{Engine};
ghost use Rattle.engine.specs.Reached.{Reached};
ghost use Rattle.terms.specs.Proposals.{Content};
ghost use Rattle.terms.specs.declared.sheet.Settings.{Settings};

/// The journal of a chain is what its listing shows, newest first.
#[tactic(auto, using(crate::proofs::ListedLaws::journal_listed))]
pub fn journal_listed()
    ensures { (S : Settings) (c : Chain Content)
        → journal S c ≡ entered (listed_transactions (listing (ordered S) c)) [] }
{}

/// In every engine that calls from an accepted open lead to, weights add up.
#[tactic(auto, using(crate::proofs::BalanceLaws::weights_add_up))]
pub fn weights_add_up()
    ensures { (e : Engine) → Reached e → AddsUp e }
{}
