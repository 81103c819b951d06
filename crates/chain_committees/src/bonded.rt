//! The committees of rounds, from the chain in the table (docs/RULES.md, "Weights" to "Leader and anchor").
//!
//! Its cost is that of one pass over the header of each row and each held certificate, of one leader for each block, and of at most two looks at each certificate in a block.

ghost use Rattle.std.specs.Prelude.{◌≡◌, true, ℕ, ◌-◌, ◌<◌, ◌≤◌};
ghost use Rattle.store.specs.Table.{Row};
ghost use Rattle.committee.specs.Committees.{committee_of, known_by};
ghost use Rattle.chain_committees.specs.BlockChanges.{last_round, block_fits, blocks_fit};
ghost use Rattle.chain_committees.specs.Pairs.{PairOf};
ghost use Rattle.chain_committees.specs.Rows.{RowsTo};
ghost use Rattle.chain_committees.specs.Told.{blocks_in};
ghost use Rattle.chain_committees.specs.Walks.{passed};

use crate::chain::Chain;
use crate::over_blocks;
use crate::walk::Walk;
use committee::committees::{Committee, Committees};
use terms::Round;

/// The round of the newest of the first `blocks` blocks, 0 for none.
#[tactic(auto, unfolding(crate::specs::BlockChanges::last_round))]
pub fn last_round(table: &[u32], blocks: u32) -> Round
    requires { Row table.now blocks }
    ensures { result ≡ last_round table.now blocks }
{
    if blocks == 0 {
        Round(0)
    } else {
        store::block_round(table, blocks)
    }
}

// Has the block after the first `blocks` an even round, above that of the block before and below the ceiling? All three are asked of each block, without branches.
#[tactic(auto, unfolding(crate::specs::BlockChanges::block_fits))]
fn block_fits(table: &[u32], blocks: u32, ceiling: Round) -> bool
    requires { RowsTo table.now ceiling × (blocks < ceiling) }
    ensures { result ≡ block_fits ceiling table.now blocks }
{
    let round = store::block_round(table, blocks + 1);
    (round.0 % 2 == 0) & (last_round(table, blocks).0 < round.0) & (round.0 < ceiling.0)
}

/// Are the block rounds even, rising and below the ceiling? There are at most as many blocks as rounds.
#[tactic(auto, unfolding(crate::specs::BlockChanges::blocks_fit, base::specs::Folds::all_to))]
pub fn blocks_fit(table: &[u32], blocks: u32, ceiling: Round) -> bool
    requires { RowsTo table.now ceiling × (blocks ≤ ceiling) }
    ensures { result ≡ blocks_fit ceiling table.now blocks }
{
    (0..blocks).all(|k| block_fits(table, k, ceiling))
}

/// Does no block change the committee of `round`? Then all rounds up to `round` have the starting weights.
/// Where the answer is no they may have them too.
#[tactic(auto, using(crate::proofs::ChainInTableLaws::committee_starts))]
pub fn is_starting(chain: Chain, round: Round) -> bool
    ensures { let c = chain.entry in
        result ≡ true → (q : ℕ) → q ≤ round
        → committee_of c.settings.now (blocks_in c) q ≡ c.settings.now.weights }
{
    let lookback = chain.settings.lookback;
    round.0 <= lookback
        || chain.blocks == 0
        || round.0 - lookback <= store::block_round(chain.table, 1).0
}

/// The round before `round`; 0 has none and stays.
pub(crate) fn round_before(round: Round) -> Round
    ensures { result ≡ round - 1 }
{
    Round(round.0.saturating_sub(1))
}

// Both committees by a walk that is at its start.
fn walked(walk: &mut Walk, round: Round) -> Committees
    requires { passed walk.old ≡ 0 }
    ensures { let c = walk.old.chain in PairOf c.settings.now (blocks_in c) round result }
{
    walk.reach(round_before(round));
    let before = walk.committee();
    walk.reach(round);
    let at = walk.committee();
    Committees { before, at }
}

/// The committees of `round` and of the one before it; a round up to lookback has the starting weights.
pub(crate) fn committees_of(chain: Chain, round: Round) -> Committees
    ensures { let c = chain.entry in PairOf c.settings.now (blocks_in c) round result }
{
    if is_starting(chain, round) {
        let starting = chain.starting();
        return Committees {
            before: starting,
            at: starting,
        };
    }
    over_blocks!(chain, walk => walked(&mut walk, round))
}

/// The committee of `round`.
pub fn committee_of(chain: Chain, round: Round) -> Committee
    ensures weights { let c = chain.entry in
        result.weights ≡ committee_of c.settings.now (blocks_in c) round }
    ensures margin { result.margin ≡ chain.entry.settings.now.margin }
{
    committees_of(chain, round).at
}

/// Does the chain tell the committee of `round`? It does up to lookback + 2 rounds after its newest block.
#[tactic(auto, using(crate::proofs::ChainLaws::last_of_chain), unfolding(committee::specs::Committees::known_by))]
pub fn known(chain: Chain, round: Round) -> bool
    ensures { let c = chain.entry in result ≡ known_by c.settings.now (blocks_in c) round }
{
    let newest = last_round(chain.table, chain.blocks);
    round.0 as u64 <= chain.settings.lookback as u64 + (newest.0 as u64 + 2)
}
