//! The certificates that a commit hangs on, where committees are kept (docs/RULES.md, "What a commit hangs on").
//!
//! The votes are weighed by kept committees; only a certificate that is in a block already, of the present round or the one before, is tried by a walk: a member's calls leave none.

ghost use Rattle.std.specs.Prelude.{◌≡◌, true, ◌/◌, ◌≤◌, length, IfOk};
ghost use Rattle.base.specs.Checks.{refusal};
ghost use Rattle.refusals.specs.Refusals.{refusal_in};
ghost use Rattle.state.specs.Cached.{Cached};
ghost use Rattle.critical.specs.Critical.{critical_places, reading_critical, critical_refusal, critical_list};
ghost use Rattle.critical.specs.Answers.{Weighs};
ghost use Rattle.owned.specs.Known.{known};

use crate::known;
use committee::leader;
use critical::Weighed;
use member_view::View;
use refusals::Refusal;
use state::State;
use terms::Round;
use votes::checks;

// The checks of a well-formed state: 25, and those of commit; the list has so many words. Gives what an accepted commit is weighed by. One leader is asked for, that of the round before.
#[tactic(auto, using(votes::proofs::CheckLaws::refused_in_time, votes::proofs::CheckLaws::refused_by_votes), unfolding(base::specs::Checks::refusal))]
fn weigh(view: &View, words: usize) -> Result<Weighed, Refusal>
    ensures refusal { refusal_in result
        ≡ refusal (reading_critical view.now.state.now view.now.table.now words) }
    ensures weighs { IfOk result (λ x. Weighs view.now.state.now view.now.table.now x
        × (32 ≤ words / 2)) }
{
    if words / 2 < 32 {
        return Err(Refusal::LengthRange);
    }
    checks::check_time(view)?;
    let round = view.state.round;
    let before = Round(round.0 - 1);
    let leader = leader::leader(&view.committee(before).weights, before);
    let committee = view.committee(round);
    checks::check_anchor(view.state, view.table, leader, &committee)?;
    Ok(Weighed::new(view.state, view.table, leader, committee))
}

/// Lists the certificates that a commit hangs on; the value is their number. The table is lent for writing, and is afterwards as it was.
#[tactic(auto, unfolding(base::specs::Checks::refusal, state::specs::Answers::if_accepted, critical::specs::Critical::critical_refusal, critical::specs::Critical::critical_list))]
pub(crate) fn critical_kept(
    state: &State,
    table: &mut [u32],
    kept: &[u64],
    list: &mut [u32],
) -> Result<u32, Refusal>
    requires { Cached state.now table.old true (known state.now table.old kept.now) }
    ensures refusal { refusal_in result ≡ critical_refusal state.now table.old (length list.old) }
    ensures value { IfOk result (λ n. n ≡ length (critical_places state.now table.old)) }
    ensures table { table.new ≡ table.old }
    ensures list { list.new ≡ critical_list state.now table.old list.old }
{
    let words = list.len();
    let weighed = weigh(&known::view(state, table, kept), words)?;
    Ok(critical::list_places(state, table, &weighed, list))
}
