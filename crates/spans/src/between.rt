//! What a block holds where it is known between which rounds its certificates lie (extents): no other row is looked at.

ghost use Rattle.std.specs.Prelude.{◌≡◌, ℕ, ◌+◌, ◌*◌, ◌/◌, ◌<◌, ◌≤◌, length};
ghost use Rattle.store.specs.Table.{Row};
ghost use Rattle.chain_committees.specs.BlockChanges.{start_at};
ghost use Rattle.extents.specs.Together.{Together};
ghost use Rattle.spans.specs.Rows.{place_held, row_held, block_held, HeldFits, PutsHeld};

use crate::block;
use chain_committees::chain::Chain;
use terms::Member;

// How many certificates `block` holds at a place: one or none.
#[tactic(auto, using(crate::proofs::RowLaws::held_one))]
fn count_place(table: &[u32], block: u32, place: u32) -> u32
    requires { Row table.now (place / 16) }
    ensures count { result ≡ length (place_held table.now block place) }
    ensures most { result ≤ 1 }
{
    if block::is_held(table, block, place) {
        1
    } else {
        0
    }
}

// How many it holds in the row of a place, with whomever the row starts.
fn count_row(table: &[u32], block: u32, place: u32) -> u32
    requires { Row table.now (place / 16) }
    ensures count { (a : ℕ) → result ≡ length (row_held table.now block a (place / 16)) }
    ensures most { result ≤ 16 }
{
    let row = place / 16 * 16;
    let mut count = 0;
    for i in 0..16 {
        count += count_place(table, block, row + i);
    }
    count
}

/// How many certificates the block after the first ones, `before` in number, holds, where the blocks of the chain hang together.
pub(crate) fn count(chain: Chain, before: u32) -> u32
    requires before { before < chain.blocks }
    requires together { let c = chain in
        Together c.settings.now.ceiling c.table.now c.blocks }
    ensures count { let c = chain.entry in
        result ≡ length (block_held c.settings.now c.table.now before) }
    ensures most { result ≤ 16 * 1024 + 16 }
{
    let block = before + 1;
    let low = extents::low(chain, true, block);
    let top = extents::top(chain, true, block);
    let mut count = 0;
    for q in low.0..top.0 {
        count += count_row(chain.table, block, q * 16 + 16);
    }
    count
}

/// Puts what the block after the first ones, `before` in number, holds, from `at` on, where its rows start with member `start` and the blocks of the chain hang together; gives the next place of the list.
pub(crate) fn put(chain: Chain, start: Member, before: u32, list: &mut [u32], at: usize) -> usize
    requires before { before < chain.blocks }
    requires together { let c = chain in
        Together c.settings.now.ceiling c.table.now c.blocks }
    requires start { let c = chain in
        start.0 ≡ start_at c.settings.now c.table.now before }
    requires room { let c = chain in
        HeldFits list.old at (block_held c.settings.now c.table.now before) }
    ensures { let c = chain.entry in
        PutsHeld list.old list.new at result c.table.now (before + 1)
        (block_held c.settings.now c.table.now before) }
{
    let block = before + 1;
    let low = extents::low(chain, true, block);
    let top = extents::top(chain, true, block);
    let mut to = at;
    for r in low.0..top.0 {
        to = block::put_row(list, to, chain.table, block, start, r * 16 + 16);
    }
    to
}
