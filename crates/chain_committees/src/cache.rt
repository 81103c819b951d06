//! Committees cached by round beside the table, so that a call need not walk over it (docs/RULES.md, "Weights" to "Leader and anchor").
//!
//! The first word of a cache is the first round that it has; then come sixteen words for each round from there on, up to the ceiling, as far as there is room.

ghost use Rattle.std.specs.Prelude.{◌≡◌, true, ◌+◌, ◌<◌, ◌≤◌, length, IfSome};
ghost use Rattle.std.proofs.Math.Seq.{paste};
ghost use Rattle.committee.specs.Committees.{committee_of};
ghost use Rattle.chain_committees.specs.BlockChanges.{start_at};
ghost use Rattle.chain_committees.specs.Caches.{first_round, words_at, words_to, weights_at, numbers, InWindow, Caches};
ghost use Rattle.chain_committees.specs.Pairs.{PairOf};
ghost use Rattle.chain_committees.specs.Told.{blocks_in};
ghost use Rattle.chain_committees.specs.Walks.{passed};

use crate::chain::Chain;
use crate::walk::Walk;
use crate::{bonded, over_blocks};
use committee::committees::{Committee, Committees};
use committee::leader;
use terms::sheet::Weight;
use terms::{Member, Round};

/// Where the rounds of a cache start, behind the word for the first of them.
pub const ROUNDS: usize = 1;
/// The words of a round in a cache: its committee, sixteen weights.
pub const COMMITTEE: usize = 16;
/// The words of a cache with room for one round.
pub const ONE_ROUND: usize = ROUNDS + COMMITTEE;

/// The first word of a cache that has no rounds: no ceiling is as high.
pub const NO_ROUND: u64 = 4294967296;

/// The sixteen weights from `at` on.
pub fn weights_at(cache: &[u64], at: usize) -> [Weight; 16]
    requires { at + 16 ≤ length cache.now }
    ensures { result ≡ weights_at cache.now at }
{
    std::array::from_fn(|i| Weight(cache[at + i]))
}

/// Puts sixteen weights from `at` on.
#[tactic(auto, using(crate::proofs::CacheLaws::put_more))]
pub fn put_weights(weights: &[Weight; 16], at: usize, cache: &mut [u64])
    requires { at + 16 ≤ length cache.old }
    ensures { (length weights.now ≡ 16)
        × (cache.new ≡ paste cache.old at (numbers weights.now) 16) }
{
    for i in 0..16usize {
        cache[at + i] = weights[i].0;
    }
}

/// The words of a cache from round 0 on that has room up to the committee of `round`.
pub fn words_to(round: Round) -> usize
    ensures { result ≡ words_to round }
{
    round.0 as usize * COMMITTEE + ONE_ROUND
}

/// Is `round` in the window, with room for its weights, and not above the ceiling?
pub fn is_cached(cache: &[u64], ceiling: Round, round: Round) -> bool
    ensures { result ≡ true → (round ≤ ceiling) × InWindow cache.now round }
{
    let q = round.0 as u64;
    round.0 <= ceiling.0
        && ONE_ROUND <= cache.len()
        && cache[0] <= q
        && (q - cache[0]) as usize * COMMITTEE + ONE_ROUND <= cache.len()
}

// The committee of `round`, which is cached.
#[tactic(auto, using(crate::proofs::ChainInTableLaws::committee_bounded))]
fn cached_at(cache: &[u64], chain: Chain, round: Round) -> Committee
    requires caches { let c = chain in Caches c.settings.now (blocks_in c) cache.now }
    requires round { round ≤ chain.settings.now.ceiling }
    requires window { InWindow cache.now round }
    ensures weights { let c = chain.entry in
        result.weights ≡ committee_of c.settings.now (blocks_in c) round }
    ensures margin { result.margin ≡ chain.entry.settings.now.margin }
{
    let at = (round.0 as u64 - cache[0]) as usize * COMMITTEE + ROUNDS;
    Committee {
        weights: weights_at(cache, at),
        margin: chain.settings.margin,
    }
}

/// The committees of `round` and of the one before it: those cached, or else by a walk over the blocks.
pub fn committees(cache: &[u64], chain: Chain, round: Round) -> Committees
    requires { let c = chain in Caches c.settings.now (blocks_in c) cache.now }
    ensures { let c = chain.entry in PairOf c.settings.now (blocks_in c) round result }
{
    let ceiling = chain.settings.ceiling;
    let previous = bonded::round_before(round);
    if is_cached(cache, ceiling, round) && is_cached(cache, ceiling, previous) {
        Committees {
            before: cached_at(cache, chain, previous),
            at: cached_at(cache, chain, round),
        }
    } else {
        bonded::committees_of(chain, round)
    }
}

/// The committee of `round`: the one cached, the starting one, or else by a walk over the blocks.
pub fn committee(cache: &[u64], chain: Chain, round: Round) -> Committee
    requires { let c = chain in Caches c.settings.now (blocks_in c) cache.now }
    ensures weights { let c = chain.entry in
        result.weights ≡ committee_of c.settings.now (blocks_in c) round }
    ensures margin { result.margin ≡ chain.entry.settings.now.margin }
{
    if is_cached(cache, chain.settings.ceiling, round) {
        cached_at(cache, chain, round)
    } else if bonded::is_starting(chain, round) {
        chain.starting()
    } else {
        bonded::committee_of(chain, round)
    }
}

/// With whom the rows of the block after the first ones, `before` in number, start, 16 for none: the leader of its round, where the committee is cached.
pub fn start_of(cache: &[u64], chain: Chain, before: u32) -> Option<Member>
    requires before { before < chain.blocks }
    requires caches { let c = chain in Caches c.settings.now (blocks_in c) cache.now }
    ensures { let c = chain.entry in
        IfSome result (λ m. (m.0 ≡ start_at c.settings.now c.table.now before) × (m.0 ≤ 16)) }
{
    let round = store::block_round(chain.table, before + 1);
    if !is_cached(cache, chain.settings.ceiling, round) {
        return None;
    }
    let committee = cached_at(cache, chain, round);
    Some(leader::leader(&committee.weights, round))
}

// The rounds from the first up to the ceiling, by a walk that is at its start.
#[tactic(auto, using(crate::proofs::CacheLaws::caches_more))]
fn cache_rounds(walk: &mut Walk, first: Round, cache: &mut [u64])
    requires { (passed walk.old ≡ 0) × (first ≤ walk.old.chain.settings.now.ceiling)
        × (ONE_ROUND ≤ length cache.old) }
    ensures caches { let c = walk.old.chain in Caches c.settings.now (blocks_in c) cache.new }
    ensures begins { first_round cache.new ≡ first }
{
    cache[0] = first.0 as u64;
    let ceiling = walk.chain.settings.ceiling;
    for q in first.0..ceiling.0 + 1 {
        let at = (q - first.0) as usize * COMMITTEE + ROUNDS;
        if cache.len() < at + COMMITTEE {
            return;
        }
        walk.reach(Round(q));
        put_weights(&walk.weights, at, cache);
    }
}

/// Caches the committees of the rounds from `first` on, up to the ceiling, for as many as there is room: a word for the first round, and sixteen for each.
/// A cache of less than 17 words stays, and has no round.
pub fn fill_cache(chain: Chain, first: Round, cache: &mut [u64])
    requires { first ≤ chain.settings.now.ceiling }
    ensures caches { let c = chain.entry in Caches c.settings.now (blocks_in c) cache.new }
    ensures begins { ONE_ROUND ≤ length cache.old → first_round cache.new ≡ first }
    ensures short { length cache.old < ONE_ROUND → cache.new ≡ cache.old }
{
    if cache.len() < ONE_ROUND {
        return;
    }
    over_blocks!(chain, walk => cache_rounds(&mut walk, first, cache))
}
