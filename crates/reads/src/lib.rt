//! The reads: committees, shares, certificates, blocks.
//!
//! They change nothing. Each gives what the rules give at the view, or the number of the first check that fails: the numbers are specs/Reads, what the rules' reads give is rules/specs/Reads, a certificate as it is handed out is specs/Held, and how far a bond moves the shares at most is specs/Bounds. docs/RULES.md, "Reads".
#![tactic(auto)]

pub mod bonding;
pub mod standing;
pub mod theorems;

ghost use Rattle.std.specs.Prelude.{◌≡◌, IfOk};
ghost use Rattle.rules.specs.Reads.{block_read};
ghost use Rattle.state.specs.View.{view};
ghost use Rattle.refusals.specs.Refusals.{refusal_in};
ghost use Rattle.member_view.specs.Views.{settings_of, shown};
ghost use Rattle.reads.specs.Reads.{certificate_refusal, block_refusal};
ghost use Rattle.reads.specs.Held.{certificate_read};

use member_view::View;
use refusals::Refusal;
use state::State;
use store::record;
use terms::{Member, Proposal, Round};

/// A held certificate: its proposal, the endorsers that it was stored with, and the number of its block, 0 for none.
#[derive(Debug, Clone, Copy)]
pub struct Held {
    /// Its author, round and body.
    pub proposal: Proposal,
    /// The set of its endorsers, member i counting 2 to the power i; the author is not among them.
    pub endorsers: u16,
    /// The number of its block, from 1; 0 for none.
    pub block: u32,
}

/// The certificate of a place, of a state that is known to be well formed. Checks 4, 5 and 23, in this order.
#[tactic(auto, using(crate::proofs::CertificateReadLaws::of_a_place), unfolding(base::specs::Checks::refusal, crate::specs::Reads::certificate_refusal))]
pub fn certificate_of(view: &View, author: Member, round: Round) -> Result<Held, Refusal>
    ensures refusal { refusal_in result
        ≡ certificate_refusal view.now.state.now view.now.table.now author.0 round }
    ensures value { IfOk result (λ h. h ≡ certificate_read view.now.state.now view.now.table.now
        author.0 round) }
{
    if 15 < author.0 {
        return Err(Refusal::MemberRange);
    }
    if view.is_bad_round(round) {
        return Err(Refusal::RoundRange);
    }
    if !view.is_held(author, round) {
        return Err(Refusal::NoneThere);
    }
    let table = view.table;
    Ok(Held {
        proposal: record::proposal_at(table, author, round),
        endorsers: record::endorsers(table, author, round),
        block: record::mark(table, author, round),
    })
}

/// The certificate of a place. Checks 1, 4, 5 and 23, in this order.
#[tactic(auto, unfolding(base::specs::Checks::refusal, crate::specs::Reads::certificate_refusal))]
pub fn certificate(
    state: &State,
    table: &[u32],
    author: Member,
    round: Round,
) -> Result<Held, Refusal>
    ensures refusal { refusal_in result ≡ certificate_refusal state.now table.now author.0 round }
    ensures value { IfOk result (λ h. h ≡ certificate_read state.now table.now author.0 round) }
{
    certificate_of(
        &View::known(state::well_formed(state, table), &[], state, table)?,
        author,
        round,
    )
}

/// The round of a block, by its number from 1, of a state that is known to be well formed. Check 23.
#[tactic(auto, using(crate::proofs::BlockLaws::blocks_shown, crate::proofs::BlockLaws::round_shown), unfolding(base::specs::Checks::refusal, crate::specs::Reads::block_refusal))]
pub fn block_of(view: &View, block: u32) -> Result<Round, Refusal>
    ensures refusal { refusal_in result
        ≡ block_refusal view.now.state.now view.now.table.now block }
    ensures value { IfOk result (λ r. r
        ≡ block_read (settings_of view.now) (shown view.now) block) }
{
    if block == 0 || view.state.blocks < block {
        return Err(Refusal::NoneThere);
    }
    Ok(store::block_round(view.table, block))
}

/// The round of a block, by its number from 1. Checks 1 and 23, in this order.
#[tactic(auto, unfolding(base::specs::Checks::refusal, crate::specs::Reads::block_refusal))]
pub fn block(state: &State, table: &[u32], number: u32) -> Result<Round, Refusal>
    ensures refusal { refusal_in result ≡ block_refusal state.now table.now number }
    ensures value { IfOk result (λ r. r
        ≡ block_read state.now.settings (view state.now table.now) number) }
{
    block_of(
        &View::known(state::well_formed(state, table), &[], state, table)?,
        number,
    )
}
