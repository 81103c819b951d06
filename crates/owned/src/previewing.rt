//! The preview of a commit, where committees are kept (docs/RULES.md, "Preview").

ghost use Rattle.std.specs.Prelude.{◌≡◌, true, IfOk, OnOk, length, replicate};
ghost use Rattle.base.specs.Checks.{refusal};
ghost use Rattle.refusals.specs.Refusals.{refusal_in};
ghost use Rattle.state.specs.Cached.{Cached};
ghost use Rattle.votes.specs.Checks.{leaders_for};
ghost use Rattle.preview.specs.Preview.{previewing, preview_refusal, preview_entries, preview_list};
ghost use Rattle.owned.specs.Known.{known};
ghost use Rattle.owned.specs.Rooted.{Rooted};

use crate::{known, leaders};
use blocks::histories::anchors;
use chain_committees::bonded;
use member_view::View;
use refusals::Refusal;
use state::State;
use terms::Round;

// The checks of a well-formed state: 25, and those of commit, by which `leaders` gets the leaders by round. The list has so many words.
#[tactic(auto, unfolding(base::specs::Checks::refusal))]
fn check(view: &View, words: usize, leaders: &mut [u8; 1025]) -> Result<(), Refusal>
    requires { leaders.old ≡ replicate 1025 16 }
    ensures refusal { refusal_in result
        ≡ refusal (previewing view.now.state.now view.now.table.now words) }
    ensures leaders { OnOk result (leaders.new
        ≡ leaders_for view.now.state.now view.now.table.now) }
{
    let ceiling = view.state.settings.ceiling;
    if words / 3 < 16 * ceiling.0 as usize {
        return Err(Refusal::LengthRange);
    }
    leaders::check(view, leaders)
}

/// Lists the certificates that a commit would put into blocks; the value is their number. State and table stay as they are.
#[tactic(auto, unfolding(base::specs::Checks::refusal, state::specs::Answers::if_accepted, preview::specs::Preview::preview_refusal, preview::specs::Preview::preview_list))]
pub(crate) fn preview_kept(
    state: &State,
    table: &[u32],
    kept: &[u64],
    list: &mut [u32],
) -> Result<u32, Refusal>
    requires { Cached state.now table.now true (known state.now table.now kept.now)
        × Rooted state.now.settings.ceiling table.now }
    ensures refusal { refusal_in result ≡ preview_refusal state.now table.now (length list.old) }
    ensures value { IfOk result (λ n. n ≡ length (preview_entries state.now table.now)) }
    ensures list { list.new ≡ preview_list state.now table.now list.old }
{
    let words = list.len();
    let mut leaders = [16u8; 1025];
    check(&known::view(state, table, kept), words, &mut leaders)?;
    let last = bonded::last_round(table, state.blocks);
    let round = state.round;
    let top = Round(round.0 - 1);
    anchors::take_leaders(table, &mut leaders, last, top);
    let put = prospects::list_whole(table, &leaders, last, top, state.blocks, list);
    Ok((put / 3) as u32)
}
