//! Commit: anchors make blocks, oldest first.
//!
//! The anchor of the round before, and those that its history takes. The answer is the number of blocks, and the table is the one with exactly these blocks more (specs/Commit, by the rules' `committed`). docs/RULES.md, "Commit".
#![tactic(auto)]

ghost use Rattle.std.specs.Prelude.{◌≡◌, ◌-◌, IfOk};
ghost use Rattle.refusals.specs.Refusals.{refusal_in};
ghost use Rattle.state.specs.WellFormed.{well_formed};
ghost use Rattle.commit.specs.Commit.{commit_refusal, blocks_then, commit_state, commit_table_after, RulesGive};

use blocks::making;
use chain_committees::bonded;
use member_view::View;
use refusals::Refusal;
use state::State;
use terms::Round;
use votes::checks;

/// The call, where it is known whether the state is well formed. The value is the number of blocks added.
#[tactic(auto, using(crate::proofs::MadeLaws::passed, crate::proofs::MadeLaws::ready), unfolding(base::specs::Checks::refusal, state::specs::Refusals::refusal_of, state::specs::Answers::if_accepted, crate::specs::Commit::commit_refusal, crate::specs::Commit::commit_state, crate::specs::Commit::commit_table_after))]
pub fn commit_cached(formed: bool, state: &mut State, table: &mut [u32]) -> Result<u32, Refusal>
    requires { formed ≡ well_formed state.old table.old }
    ensures refusal { refusal_in result ≡ commit_refusal state.old table.old }
    ensures value { IfOk result (λ n. n ≡ blocks_then state.old table.old - state.old.blocks) }
    ensures state { state.new ≡ commit_state state.old table.old }
    ensures table { table.new ≡ commit_table_after state.old table.old }
    ensures ruled { IfOk result (λ n. RulesGive state.old table.old n state.new table.new) }
{
    let mut leaders = [0u8; 1025];
    checks::check(&View::known(formed, &[], state, table)?, &mut leaders)?;
    let blocks = state.blocks;
    let last = bonded::last_round(table, blocks);
    let round = state.round;
    let top = Round(round.0 - 1);
    state.blocks = making::commit_blocks(table, &mut leaders, last, top, blocks);
    let added = state.blocks - blocks;
    Ok(added)
}

/// Adds the blocks of a commit; the value is their number.
pub fn commit(state: &mut State, table: &mut [u32]) -> Result<u32, Refusal>
    ensures refusal { refusal_in result ≡ commit_refusal state.old table.old }
    ensures value { IfOk result (λ n. n ≡ blocks_then state.old table.old - state.old.blocks) }
    ensures state { state.new ≡ commit_state state.old table.old }
    ensures table { table.new ≡ commit_table_after state.old table.old }
    ensures ruled { IfOk result (λ n. RulesGive state.old table.old n state.new table.new) }
{
    commit_cached(state::well_formed(state, table), state, table)
}
