//! The leaders of many rounds, by one walk (docs/RULES.md, "Weights" to "Leader and anchor").

ghost use Rattle.chain_committees.specs.Fill.{RoundSpan, LeadersFilled};
ghost use Rattle.chain_committees.specs.Told.{blocks_in};
ghost use Rattle.chain_committees.specs.Walks.{passed};
ghost use Rattle.std.specs.Prelude.{◌≡◌};

use crate::chain::Chain;
use crate::over_blocks;
use crate::walk::Walk;
use committee::committees::Committee;
use committee::leader;
use terms::Round;

// The leaders by a walk that is at its start.
#[tactic(auto, using(crate::proofs::FillLaws::fill_none, crate::proofs::FillLaws::fill_more, committee::proofs::LeaderLaws::leader_le), unfolding(crate::specs::Fill::leader_at, committee::specs::Committees::leader_by))]
fn filled(walk: &mut Walk, low: Round, top: Round, leaders: &mut [u8; 1025]) -> Committee
    requires { (passed walk.old ≡ 0) × RoundSpan low top }
    ensures { let c = walk.old.chain in
        LeadersFilled c.settings.now (blocks_in c) low top leaders.old leaders.new result }
{
    for q in low.0..top.0 {
        let round = Round(q + 1);
        walk.reach(round);
        leaders[q as usize + 1] = leader::leader(&walk.weights, round).0 as u8;
    }
    walk.reach(Round(top.0 + 1));
    walk.committee()
}

/// Writes the number of the leader of each round above `low` up to `top` into `leaders`, by round, 16 for none; gives the committee of the round above `top`.
/// The span may be empty, and goes up to 1,024; the ceiling is no bound of it. All else of `leaders` stays.
pub fn fill_leaders(chain: Chain, low: Round, top: Round, leaders: &mut [u8; 1025]) -> Committee
    requires { RoundSpan low top }
    ensures { let c = chain.entry in
        LeadersFilled c.settings.now (blocks_in c) low top leaders.old leaders.new result }
{
    over_blocks!(chain, walk => filled(&mut walk, low, top, leaders))
}
