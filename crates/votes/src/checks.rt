// The checks of a commit in a well-formed state, and the leaders by round that they go by.

ghost use Rattle.std.specs.Prelude.{◌≡◌, true, OnOk, IfOk, IfErr};
ghost use Rattle.base.specs.Checks.{refusal};
ghost use Rattle.rules.specs.Calls.{checks, commit};
ghost use Rattle.refusals.specs.Refusals.{number_of, refusal_in};
ghost use Rattle.member_view.specs.Views.{shown};
ghost use Rattle.votes.specs.Checks.{time_checks, vote_checks, leaders_for};
ghost use Rattle.votes.specs.Ready.{AnchorLed, AnchorReady, LeadersWanted};

use blocks::histories::anchors;
use chain_committees::chain::Chain;
use chain_committees::{bonded, leaders};
use committee::committees::Committee;
use committee::leader;
use member_view::View;
use refusals::Refusal;
use state::State;
use terms::{Member, Round};

/// The checks of time: 19, 20, 8.
#[tactic(auto, using(crate::proofs::CheckLaws::last_told), unfolding(base::specs::Checks::refusal))]
pub fn check_time(view: &View) -> Result<(), Refusal>
    ensures { refusal_in result ≡ refusal (time_checks view.now.state.now view.now.table.now) }
{
    let round = view.state.round;
    if round.0 % 2 == 0 || round.0 == 1 {
        return Err(Refusal::NoCommitRound);
    }
    if round.0 - 1 <= bonded::last_round(view.table, view.state.blocks).0 {
        return Err(Refusal::BlockMade);
    }
    if view.is_unknown(round) {
        return Err(Refusal::CommitteeUnknown);
    }
    Ok(())
}

/// Puts the leaders by round into `leaders`, which has 16s, and gives the committee of the present round: what the votes of a state that passes those of time are weighed by.
pub fn fill_leaders(state: &State, table: &[u32], leaders: &mut [u8; 1025]) -> Committee
    requires { LeadersWanted state.now table.now leaders.old }
    ensures { AnchorReady state.now table.now leaders.new result }
{
    let last = bonded::last_round(table, state.blocks);
    let round = state.round;
    let chain = Chain::new(table, &state.settings, state.blocks);
    leaders::fill_leaders(chain, last, Round(round.0 - 1), leaders)
}

/// The checks of the votes, 21 and 22, where `anchor` is the leader of the round before, 16 for none, and `committee` that of the present round.
#[tactic(auto, using(crate::proofs::CheckLaws::no_anchor, crate::proofs::CheckLaws::votes_short, crate::proofs::CheckLaws::votes_pass, crate::proofs::CheckLaws::votes_ready))]
pub fn check_anchor(
    state: &State,
    table: &[u32],
    anchor: Member,
    committee: &Committee,
) -> Result<(), Refusal>
    requires { AnchorLed state.now table.now anchor.0 committee.now }
    ensures { refusal_in result ≡ refusal (vote_checks state.now table.now) }
{
    let round = state.round;
    let top = Round(round.0 - 1);
    if !anchors::is_held_leader(store::held_set(table, top), anchor) {
        return Err(Refusal::NoAnchor);
    }
    let votes = crate::counting::votes_for(table, &committee.weights, round, anchor);
    if votes.0 <= committee.bound().0 {
        return Err(Refusal::VotesShort);
    }
    Ok(())
}

/// The checks of the votes, 21 and 22, of a state that passes those of time, where `leaders` has the leaders by round and `committee` is that of the present round.
pub fn check_votes(
    state: &State,
    table: &[u32],
    leaders: &[u8; 1025],
    committee: &Committee,
) -> Result<(), Refusal>
    requires { AnchorReady state.now table.now leaders.now committee.now }
    ensures { refusal_in result ≡ refusal (vote_checks state.now table.now) }
{
    let round = state.round;
    let anchor = Member(leaders[round.0 as usize - 1] as u32);
    check_anchor(state, table, anchor, committee)
}

/// What the checks of the votes answer a state that passes those of time, as far as it is told without a walk: whether any certificate of the round before is held, and both checks where no block has changed a committee yet. The value says whether they pass for sure; `Ok(false)` tells nothing, and how much is told early no clause says.
#[tactic(auto, using(crate::proofs::CheckLaws::nobody_held))]
pub fn check_early(view: &View) -> Result<bool, Refusal>
    requires { refusal (time_checks view.now.state.now view.now.table.now) ≡ 0 }
    ensures err { IfErr result (λ e. number_of e
        ≡ refusal (vote_checks view.now.state.now view.now.table.now)) }
    ensures ok { IfOk result (λ told. told ≡ true
        → refusal (vote_checks view.now.state.now view.now.table.now) ≡ 0) }
{
    let round = view.state.round;
    let top = Round(round.0 - 1);
    if store::held_set(view.table, top) == 0 {
        return Err(Refusal::NoAnchor);
    }
    let chain = view.chain();
    if !bonded::is_starting(chain, round) {
        return Ok(false);
    }
    let starting = chain.starting();
    let anchor = leader::leader(&starting.weights, top);
    check_anchor(view.state, view.table, anchor, &starting)?;
    Ok(true)
}

/// The checks of a well-formed state: 19, 20, 8, 21, 22. Where it passes, `leaders` has the leaders by round, 16 for none.
#[tactic(auto, using(crate::proofs::CheckLaws::refused_in_time, crate::proofs::CheckLaws::refused_by_votes))]
pub fn check(view: &View, leaders: &mut [u8; 1025]) -> Result<(), Refusal>
    ensures refusal { let s = view.now.state.now in
        refusal_in result ≡ refusal (checks s.settings s.own.0 (shown view.now) commit) }
    ensures leaders { OnOk result (leaders.new
        ≡ leaders_for view.now.state.now view.now.table.now) }
{
    check_time(view)?;
    let told = check_early(view)?;
    // `fill_leaders` writes only the rounds above the newest block; the others have nobody, and what a caller hands in, zeros, would say member 0.
    *leaders = [16; 1025];
    let committee = fill_leaders(view.state, view.table, leaders);
    if told {
        return Ok(());
    }
    check_votes(view.state, view.table, leaders, &committee)
}
