//! Open: a fresh state, and the used table cleared.
//!
//! Refused, nothing changes; accepted, the state is fresh by the filled sheet, and every word that it uses of the table is 0 (specs/Open). docs/RULES.md, "Open".
#![tactic(auto)]

pub mod theorems;

ghost use Rattle.std.specs.Prelude.{◌≡◌, OnOk};
ghost use Rattle.store.specs.Table.{Row};
ghost use Rattle.terms.specs.Sheets.{filled};
ghost use Rattle.refusals.specs.Refusals.{refusal_in};
ghost use Rattle.open.specs.Open.{closed_state, fresh_state, open_refusal, open_state, open_table};

use refusals::Refusal;
use state::State;
use store::{clearing, places};
use terms::sheet::{Rights, Settings, Sheet, Weight};
use terms::{Member, Round, sheet};

/// The state before an open: it is not well formed, so every call but open answers 1.
pub fn closed() -> State
    ensures { result ≡ closed_state }
{
    State {
        own: Member(0),
        settings: Settings {
            lookback: 0,
            ceiling: Round(0),
            allowance: 0,
            weights: [Weight(0); 16],
            margin: 0,
        },
        round: Round(0),
        proposal: None,
        blocks: 0,
        rights: Rights(0),
    }
}

// Round 1 and nothing else, beside the rights.
fn fresh(own: Member, settings: Settings, rights: Rights) -> State
    ensures { result ≡ fresh_state own settings rights }
{
    State {
        own,
        settings,
        round: Round(1),
        proposal: None,
        blocks: 0,
        rights,
    }
}

// The checks: 4 member above 15; 2 setting out of range; 3 no positive weight; 1 lent table too short.
#[tactic(auto, unfolding(base::specs::Checks::refusal, crate::specs::Open::open_refusal))]
fn check(table: &[u32], own: Member, settings: &Settings) -> Result<(), Refusal>
    ensures refusal { refusal_in result ≡ open_refusal table.now own settings.now }
    ensures room { OnOk result (Row table.now settings.now.ceiling) }
{
    if 15 < own.0 {
        return Err(Refusal::MemberRange);
    }
    if settings.is_out_of_range() {
        return Err(Refusal::SettingRange);
    }
    if settings.is_weightless() {
        return Err(Refusal::NoWeight);
    }
    if table.len() < places::used_length(settings.ceiling) {
        return Err(Refusal::Malformed);
    }
    Ok(())
}

/// Opens the engine of a member; a refused open leaves the state and the table as they were.
#[tactic(auto, unfolding(state::specs::Answers::if_accepted, crate::specs::Open::open_state, crate::specs::Open::open_table))]
pub fn open(
    state: &mut State,
    table: &mut [u32],
    own: Member,
    written: Sheet,
) -> Result<(), Refusal>
    ensures refusal { refusal_in result ≡ open_refusal table.old own (filled written) }
    ensures state { state.new ≡ open_state state.old table.old own written }
    ensures table { table.new ≡ open_table table.old own written }
{
    let settings = sheet::fill(written);
    check(table, own, &settings)?;
    clearing::clear_used(table, settings.ceiling);
    *state = fresh(own, settings, written.rights);
    Ok(())
}
