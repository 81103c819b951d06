//! A member's state, and the view that it shows.
//!
//! What a state is (specs/States), the view that the rules see of it and its table (specs/View), and when the two are well formed (specs/WellFormed): `well_formed` answers that for any words. What the calls use of such a state is specs/Formed, and what is cached beside it specs/Cached. The number that refuses a call (specs/Refusals), the checks of a proposal's form (specs/SharedChecks), the states that accepted calls leave (specs/States) and that a refused one leaves everything as it was (specs/Answers) stand here too. docs/RULES.md, "A member's state".
#![tactic(auto)]

pub mod theorems;

ghost use Rattle.std.specs.Prelude.{◌≡◌, ◌&&◌, ◌≤◌};
ghost use Rattle.store.specs.Table.{Row};
ghost use Rattle.scan.specs.Scan.{rows_fit};
ghost use Rattle.queues.specs.Words.{queues_fit};
ghost use Rattle.chain_committees.specs.BlockChanges.{blocks_fit};
ghost use Rattle.ports.specs.Ports.{ports_fit};
ghost use Rattle.state.specs.WellFormed.{numbers_fit, head_fits, body_fits, proposal_fits, well_formed};

use chain_committees::bonded;
use store::lengths::ROW;
use terms::sheet::{Rights, Settings};
use terms::{Body, Member, Round};

/// A member's state, but for what its table holds: certificates, endorsed places, block rounds, guests' queues and ports.
///
/// Any values may stand here: `well_formed` answers whether they mean a state.
#[derive(Debug, Clone, Copy)]
pub struct State {
    /// The member's own number, 0 to 15.
    pub own: Member,
    /// The filled settings of the sheet. They stay for the whole run.
    pub settings: Settings,
    /// The present round, 1 to the ceiling.
    pub round: Round,
    /// The proposal for the present round, if there is one: its author is the member itself.
    pub proposal: Option<Body>,
    /// The number of blocks, at most the ceiling.
    pub blocks: u32,
    /// What guests may do, fixed at opening.
    pub rights: Rights,
}

// Are own number, present round and number of blocks in range?
#[tactic(auto, unfolding(crate::specs::WellFormed::numbers_fit))]
fn numbers_fit(own: Member, round: Round, blocks: u32, ceiling: Round) -> bool
    ensures { result ≡ numbers_fit own.0 round blocks ceiling }
{
    own.0 < 16 && 1 <= round.0 && round.0 <= ceiling.0 && blocks <= ceiling.0
}

// Are the transactions in range and within the allowance, and is the previous set empty exactly in round 1?
#[tactic(auto, unfolding(crate::specs::WellFormed::body_fits))]
fn body_fits(allowance: u32, round: Round, body: Body) -> bool
    requires { allowance ≤ 4 }
    ensures { result ≡ body_fits allowance round body }
{
    !terms::has_bad_transactions(allowance, body)
        && !terms::is_bad_previous_set(round, body.previous as u32)
}

// So for the proposal, if there is one?
#[tactic(auto, unfolding(crate::specs::WellFormed::proposal_fits))]
fn proposal_fits(state: &State) -> bool
    requires { state.now.settings.allowance ≤ 4 }
    ensures { result ≡ proposal_fits state.now }
{
    match state.proposal {
        None => true,
        Some(body) => body_fits(state.settings.allowance, state.round, body),
    }
}

// Are the settings in range, with some positive weight, and the numbers?
#[tactic(auto, unfolding(crate::specs::WellFormed::head_fits))]
fn head_fits(state: &State) -> bool
    ensures { result ≡ head_fits state.now }
{
    !state.settings.is_out_of_range()
        && numbers_fit(state.own, state.round, state.blocks, state.settings.ceiling)
        && !state.settings.is_weightless()
}

// Do rows, block rounds, guests' queues and ports fit, in a table that is long enough?
fn table_fits(state: &State, table: &[u32]) -> bool
    requires long { Row table.now state.now.settings.ceiling }
    requires ceiling { state.now.settings.ceiling ≤ 1024 }
    requires blocks { state.now.blocks ≤ state.now.settings.ceiling }
    ensures { let s = state.now in let t = table.now in
        result
        ≡ (rows_fit t s.settings.allowance s.blocks s.settings.ceiling
        && (blocks_fit s.settings.ceiling t s.blocks
        && (queues_fit t && ports_fit s.settings t s.blocks))) }
{
    let ceiling = state.settings.ceiling;
    scan::rows_fit(table, state.settings.allowance, state.blocks, ceiling)
        && bonded::blocks_fit(table, state.blocks, ceiling)
        && queues::queues_fit(table)
        && ports::ports_fit(table, &state.settings, state.blocks)
}

/// Are the state and the table well formed, by the conditions of docs/RULES.md, "A member's state"?
///
/// It answers for any words, of a table of any length. Every call but open refuses with 1 where it says no.
#[tactic(auto, using(crate::proofs::FormedLaws::head_ranges), unfolding(crate::specs::WellFormed::well_formed))]
pub fn well_formed(state: &State, table: &[u32]) -> bool
    ensures { result ≡ well_formed state.now table.now }
{
    state.settings.ceiling.0 as usize * ROW + ROW <= table.len()
        && head_fits(state)
        && proposal_fits(state)
        && table_fits(state, table)
}
