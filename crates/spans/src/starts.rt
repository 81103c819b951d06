//! With whom the rows of blocks in a row start: each block's with the leader of its round (docs/RULES.md, "Order inside a block").

ghost use Rattle.std.specs.Prelude.{◌≡◌, ◌+◌, ◌<◌, ◌≤◌};
ghost use Rattle.chain_committees.specs.Caches.{Caches};
ghost use Rattle.chain_committees.specs.Told.{blocks_in};
ghost use Rattle.spans.specs.Starts.{StartsTold};

use chain_committees::chain::Chain;
use chain_committees::walk::Walk;
use chain_committees::{cache, over_blocks};

// The starts of the first `to` blocks, by a walk that goes on to them.
fn walked(walk: &mut Walk, to: u32) -> [u8; 512]
    requires { to ≤ walk.old.chain.blocks }
    ensures { let c = walk.old.chain in StartsTold c.settings.now c.table.now 0 to result }
{
    walk.begin(to);
    walk.starts
}

// The same by a walk from the first block on, whose words are cleared here alone.
fn by_a_walk(chain: Chain, to: u32) -> [u8; 512]
    requires { to ≤ chain.blocks }
    ensures { let c = chain.entry in StartsTold c.settings.now c.table.now 0 to result }
{
    over_blocks!(chain, walk => walked(&mut walk, to))
}

/// The number of the leader of the round of each block from the one after the first `known` up to block `to`, 16 for none: by the committees that are cached, or, where one of them is not, by one walk over the blocks.
#[tactic(auto, using(crate::proofs::StartLaws::starts_none, crate::proofs::StartLaws::starts_later))]
pub(crate) fn starts(cache: &[u64], chain: Chain, known: u32, to: u32) -> [u8; 512]
    requires to { (known ≤ to) × (to ≤ chain.blocks) }
    requires caches { let c = chain in Caches c.settings.now (blocks_in c) cache.now }
    ensures { let c = chain.entry in StartsTold c.settings.now c.table.now known to result }
{
    let mut starts = [16; 512];
    for i in known..to {
        let Some(start) = cache::start_of(cache, chain, i) else {
            return by_a_walk(chain, to);
        };
        starts[i as usize] = start.0 as u8;
    }
    starts
}
