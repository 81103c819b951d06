//! Between which rounds the certificates of a block lie.
//!
//! In a chain whose blocks hang together, those of a block lie in rounds one after the other, from the block's own down (specs/Together): so they end where a round has none. Of any other chain all rounds are told. docs/DECISIONS.md, 193.
#![tactic(auto)]

ghost use Rattle.std.specs.Prelude.{◌≡◌, true, false, ◌&&◌, ◌==◌, ◌<◌, ◌≤◌};
ghost use Rattle.store.specs.Table.{Row, Within, held_at, mark_at};
ghost use Rattle.extents.specs.Together.{InRound, in_round, Together, Below, Above};

use chain_committees::chain::Chain;
use terms::{Member, Round};

/// What is known of a chain beside its words.
#[derive(Debug, Clone, Copy)]
pub struct Hints<'a> {
    /// Committees of its rounds that were worked out before, or nothing (chain_committees::cache).
    pub cache: &'a [u64],
    /// Do its blocks hang together? False tells nothing.
    pub together: bool,
}

/// Nothing is known.
pub const NONE: Hints = Hints {
    cache: &[],
    together: false,
};

// Has `block` the certificate of `author` and `round`?
fn holds(table: &[u32], block: u32, author: Member, round: Round) -> bool
    requires { Within table.now author.0 round }
    ensures { result ≡ (held_at table.now author.0 round && mark_at table.now author.0 round == block) }
{
    store::held(table, author, round) && store::record::mark(table, author, round) == block
}

// Has it one in `round`? As a test of all sixteen members.
#[tactic(auto, unfolding(crate::specs::Together::in_round, base::specs::Folds::any_to))]
fn is_any_in(table: &[u32], block: u32, round: Round) -> bool
    requires { Row table.now round }
    ensures { result ≡ in_round table.now block round }
{
    (0..16).any(|a| holds(table, block, Member(a), round))
}

/// Has `block` a certificate in `round`?
#[tactic(auto, using(crate::proofs::TogetherLaws::in_yes, crate::proofs::TogetherLaws::in_no))]
pub fn is_in(table: &[u32], block: u32, round: Round) -> bool
    requires { Row table.now round }
    ensures yes { result ≡ true → InRound table.now block round }
    ensures no { result ≡ false → InRound table.now block round → ⊥ }
{
    is_any_in(table, block, round)
}

/// A round up to which the certificates of `block` go: its own where the blocks of the chain hang together, else the ceiling.
#[tactic(auto, using(crate::proofs::TogetherLaws::top_fits))]
pub fn top(chain: Chain, together: bool, block: u32) -> Round
    requires block { (0 < block) × (block ≤ chain.blocks) }
    requires together { let c = chain in
        together ≡ true → Together c.settings.now.ceiling c.table.now c.blocks }
    ensures above { let c = chain.entry in
        Above c.settings.now.ceiling c.table.now block result }
    ensures to { result ≤ chain.entry.settings.now.ceiling }
{
    if together {
        store::block_round(chain.table, block)
    } else {
        chain.settings.ceiling
    }
}

/// A round below all certificates of `block`: where the blocks of the chain hang together the highest up to its own that has none, else 0.
#[tactic(auto, using(crate::proofs::TogetherLaws::top_fits))]
pub fn low(chain: Chain, together: bool, block: u32) -> Round
    requires block { (0 < block) × (block ≤ chain.blocks) }
    requires together { let c = chain in
        together ≡ true → Together c.settings.now.ceiling c.table.now c.blocks }
    ensures below { let c = chain.entry in
        Below c.settings.now.ceiling c.table.now block result }
    ensures to { result ≤ chain.entry.settings.now.ceiling }
{
    if !together {
        return Round(0);
    }
    let mut round = store::block_round(chain.table, block).0;
    while 0 < round && is_in(chain.table, block, Round(round)) {
        round -= 1;
    }
    Round(round)
}
