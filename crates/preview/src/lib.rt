//! A preview of commit: its blocks, nothing changed.
//!
//! The number that would refuse the commit, or the certificates of each block that it would add: those of a commit on a copy (specs/Preview, specs/Entries). docs/RULES.md, "Preview".
#![tactic(auto)]

pub mod theorems;

ghost use Rattle.std.specs.Prelude.{◌≡◌, IfOk, OnOk, length};
ghost use Rattle.base.specs.Checks.{refusal};
ghost use Rattle.refusals.specs.Refusals.{refusal_in};
ghost use Rattle.votes.specs.Checks.{leaders_for};
ghost use Rattle.preview.specs.Preview.{previewing, preview_refusal, preview_entries, preview_list};

use blocks::histories::anchors;
use chain_committees::bonded;
use member_view::View;
use refusals::Refusal;
use state::State;
use terms::Round;
use votes::checks;

// The checks of a well-formed state: 25, and those of commit, by which `leaders` gets the leaders by round. The list has so many words.
#[tactic(auto, unfolding(base::specs::Checks::refusal))]
fn check(view: &View, words: usize, leaders: &mut [u8; 1025]) -> Result<(), Refusal>
    ensures refusal { refusal_in result
        ≡ refusal (previewing view.now.state.now view.now.table.now words) }
    ensures leaders { OnOk result (leaders.new
        ≡ leaders_for view.now.state.now view.now.table.now) }
{
    let ceiling = view.state.settings.ceiling;
    if words / 3 < 16 * ceiling.0 as usize {
        return Err(Refusal::LengthRange);
    }
    checks::check(view, leaders)
}

/// Lists the certificates that a commit would put into blocks, block by block, in each block's order; the value is their number. The list needs sixteen places for each round of the ceiling, of three words each: block number, round, author. State and table stay as they are.
#[tactic(auto, unfolding(base::specs::Checks::refusal, state::specs::Answers::if_accepted, crate::specs::Preview::preview_refusal, crate::specs::Preview::preview_list))]
pub fn preview(state: &State, table: &[u32], list: &mut [u32]) -> Result<u32, Refusal>
    ensures refusal { refusal_in result ≡ preview_refusal state.now table.now (length list.old) }
    ensures value { IfOk result (λ n. n ≡ length (preview_entries state.now table.now)) }
    ensures list { list.new ≡ preview_list state.now table.now list.old }
{
    let words = list.len();
    let mut leaders = [0u8; 1025];
    check(
        &View::known(state::well_formed(state, table), &[], state, table)?,
        words,
        &mut leaders,
    )?;
    let last = bonded::last_round(table, state.blocks);
    let round = state.round;
    let top = Round(round.0 - 1);
    anchors::take_leaders(table, &mut leaders, last, top);
    let put = prospects::list_blocks(table, &leaders, last, top, state.blocks, list);
    Ok((put / 3) as u32)
}
