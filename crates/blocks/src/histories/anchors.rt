//! The anchors that a commit takes: leaders that are not taken are struck out (docs/RULES.md, "Commit").
ghost use Rattle.std.specs.Prelude.{◌≡◌, ◌<◌, length};
ghost use Rattle.base.specs.Sets.{contains};
ghost use Rattle.blocks.specs.Anchors.{take_set, take_row, taken_leaders};
ghost use Rattle.blocks.specs.HistoryReady.{AnchorsReady};

use terms::{Member, Round};

/// Is `leader`, which may be no member, in the set?
#[tactic(auto, using(base::proofs::SetLaws::not_in))]
pub fn is_held_leader(set: u32, leader: Member) -> bool
    ensures { result ≡ contains set leader.0 }
{
    leader.0 < 16 && base::contains(set, leader.0)
}

// The leader of `round` is taken, if it is in `reached`, which is what the latest anchor reaches of `round`, or struck out. What the latest anchor reaches of `round` then.
#[tactic(auto, using(base::proofs::SetLaws::in_member), unfolding(crate::specs::Anchors::take_set, crate::specs::Anchors::take_row))]
fn take_leader(leaders: &mut [u8], round: Round, reached: u32) -> u32
    requires { round < length leaders.old }
    ensures { (result ≡ take_set leaders.old round reached)
        × (leaders.new ≡ take_row leaders.old round reached) }
{
    let at = round.0 as usize;
    let leader = leaders[at];
    if is_held_leader(reached, Member(leader as u32)) {
        return base::only(leader as u32);
    }
    leaders[at] = 16;
    reached
}

/// Strikes out the leaders between rounds `low` and top that are not taken, going down from the anchor of top; `leaders` has the leaders by round, 16 for none. A leader is taken exactly if its certificate is in the history of the latest one taken.
#[tactic(auto, using(crate::proofs::AnchorLaws::take_step, crate::proofs::AnchorLaws::take_done), unfolding(crate::specs::Anchors::taken_leaders))]
pub fn take_leaders(table: &[u32], leaders: &mut [u8], low: Round, top: Round)
    requires { AnchorsReady table.now leaders.old low top }
    ensures { leaders.new ≡ taken_leaders table.now low top leaders.old }
{
    let last = low.0;
    let mut history = base::only(leaders[top.0 as usize] as u32);
    let mut r = top.0 - 1;
    while last < r {
        let reached = crate::histories::step_down(table, history, Round(r + 1));
        history = take_leader(leaders, Round(r), reached);
        r -= 1;
    }
}
