//! The kept committees, renewed by the blocks that a commit added.
//!
//! The committee of a round has the blocks that lie more than lookback rounds before it, and a commit adds blocks above the last one only. So the committees up to that of lookback + 1 rounds after the last one stay, and each one above is that of the round before, changed by the block of one round, if there is one. docs/RULES.md, "Weights" to "Leader and anchor".

ghost use Rattle.std.specs.Prelude.{◌≡◌, true, ◌+◌, ◌*◌, ◌≤◌, length};
ghost use Rattle.std.proofs.Math.Seq.{paste};
ghost use Rattle.chain_committees.specs.Caches.{first_round, words_at, words_to, weights_at, numbers};
ghost use Rattle.owned.specs.NewBlocks.{NewBlocks};

use crate::applied::{self, BlockSpan};
use chain_committees::cache;
use chain_committees::chain::Chain;
use terms::sheet::Weight;
use terms::{Member, Round};

/// What a commit added to a chain.
///
/// The blocks after the first `earlier` are of the anchors in `leaders`, of the rounds above `last` up to `top` (specs/NewBlocks).
#[derive(Debug, Clone, Copy)]
pub struct Added<'a> {
    /// The chain with its new blocks.
    pub chain: Chain<'a>,
    /// How many blocks it had before.
    pub earlier: u32,
    /// The round of the last of those, 0 for none.
    pub last: Round,
    /// The round of the newest block.
    pub top: Round,
    /// By round, the author of the anchor, 16 for none.
    pub leaders: &'a [u8],
    /// For the round of each anchor a round below all certificates of its block.
    pub lows: &'a [u16],
    pub ghost told: { NewBlocks chain.settings.now chain.table.now leaders.now lows.now last top
        earlier chain.blocks },
}

// Have the kept committees room for all rounds up to the ceiling, from round 0 on?
fn is_full(kept: &[u64], ceiling: Round) -> bool
    ensures { result ≡ true → (first_round kept.now ≡ 0)
        × (words_to ceiling ≤ length kept.now) }
{
    cache::words_to(ceiling) <= kept.len() && kept[0] == 0
}

// The kept committee of `round`.
fn kept_at(kept: &[u64], round: Round) -> [Weight; 16]
    requires { words_to round ≤ length kept.now }
    ensures { result ≡ weights_at kept.now (words_at 0 round) }
{
    cache::weights_at(kept, round.0 as usize * cache::COMMITTEE + cache::ROUNDS)
}

// Keeps the committee of `round`.
fn keep(weights: &[Weight; 16], round: Round, kept: &mut [u64])
    requires { words_to round ≤ length kept.old }
    ensures { (length weights.now ≡ 16)
        × (kept.new ≡ paste kept.old (words_at 0 round) (numbers weights.now) 16) }
{
    cache::put_weights(
        weights,
        round.0 as usize * cache::COMMITTEE + cache::ROUNDS,
        kept,
    );
}

impl<'a> Added<'a> {
    ghost use Rattle.std.specs.Prelude.{take};
    ghost use Rattle.committee.specs.Chain.{chain_of};
    ghost use Rattle.chain_committees.specs.Caches.{Caches};
    ghost use Rattle.owned.specs.Known.{BeginsStill, known_words};
    ghost use Rattle.owned.specs.Renewal.{BlocksReady, BlocksKept};

    // Applies to the committee `weights` the new blocks of the rounds up to `stop`, and keeps the committee of each round after them. Gives how many blocks there are up to stop.
    fn renew_blocks(&self, stop: Round, weights: &mut [Weight; 16], kept: &mut [u64]) -> u32
        requires { BlocksReady self.now stop weights.old kept.old }
        ensures { BlocksKept self.now stop kept.old result weights.new kept.new }
    {
        let settings = self.chain.settings;
        let last = self.last;
        let mut count = self.earlier;
        for q in last.0..stop.0 {
            let r = q + 1;
            let author = self.leaders[r as usize];
            if author < 16 {
                let span = BlockSpan {
                    block: count + 1,
                    start: Member(author as u32),
                    low: Round(self.lows[r as usize] as u32),
                    top: Round(r),
                };
                applied::apply_block(self.chain.table, span, settings.ceiling, weights);
                count += 1;
            }
            keep(weights, Round(settings.lookback + r + 1), kept);
        }
        count
    }

    /// Renews the committees kept for the chain before its new blocks.
    /// Only the rounds that are known then are kept. A stretch without room for all rounds is filled anew.
    pub fn renew(&self, kept: &mut [u64])
        requires { let a = self.now in let s = a.chain.settings.now in
            Caches s (chain_of s.ceiling a.chain.table.now a.earlier)
            (take (known_words s a.last) kept.old) }
        ensures caches { let a = self.now in let s = a.chain.settings.now in
            Caches s (chain_of s.ceiling a.chain.table.now a.chain.blocks)
            (take (known_words s a.top) kept.new) }
        ensures begins { BeginsStill kept.old kept.new }
    {
        let settings = self.chain.settings;
        let ceiling = settings.ceiling;
        if !is_full(kept, ceiling) {
            cache::fill_cache(self.chain, Round(0), kept);
            return;
        }
        let last = self.last;
        if ceiling.0 <= settings.lookback || ceiling.0 - settings.lookback - 1 <= last.0 {
            return;
        }
        let top = self.top;
        let end = ceiling.0 - settings.lookback;
        let mut weights = kept_at(kept, Round(settings.lookback + last.0 + 1));
        let stop = top.0.min(end - 1);
        self.renew_blocks(Round(stop), &mut weights, kept);
        if top.0 + 1 < end {
            keep(&weights, Round(settings.lookback + top.0 + 2), kept);
        }
    }
}
