//! The test of blocks that hang together: a held certificate of a block is not above the block's round, and where it is below it the block has one in the round after too (extents, specs/Together). It is made once, when a member is resumed.

ghost use Rattle.std.specs.Prelude.{◌≡◌, ◌<◌, ◌≤◌, ◌&&◌, ◌==◌};
ghost use Rattle.store.specs.Table.{Within, held_at, mark_at};
ghost use Rattle.extents.specs.Together.{InRound, Together};
ghost use Rattle.owned.specs.Testing.{Tells, PlaceTogether, RowTogether};

use chain_committees::chain::Chain;
use terms::{Member, Round};

// Is the certificate of `author` and `round` held, and in `block`?
fn is_at(table: &[u32], block: u32, author: Member, round: Round) -> bool
    requires { Within table.now author.0 round }
    ensures { result ≡ (held_at table.now author.0 round
        && (mark_at table.now author.0 round == block)) }
{
    store::held(table, author, round) && store::record::mark(table, author, round) == block
}

// Has `block` a certificate in `round`? That of `author` is looked at first.
fn goes_on(table: &[u32], block: u32, author: Member, round: Round) -> bool
    requires { Within table.now author.0 round }
    ensures { Tells result (InRound table.now block round) }
{
    is_at(table, block, author, round) || extents::is_in(table, block, round)
}

// If the certificate of `author` and `round` is held and in a block: is it not above the block's round, and has the block one in the round after where it is below?
fn is_place_together(chain: Chain, author: Member, round: Round) -> bool
    requires { (author.0 < 16) × (round ≤ chain.settings.now.ceiling) }
    ensures { let c = chain.entry in
        Tells result (PlaceTogether c.table.now c.blocks author.0 round) }
{
    let table = chain.table;
    if !store::held(table, author, round) {
        return true;
    }
    let block = store::record::mark(table, author, round);
    if block == 0 || chain.blocks < block {
        return true;
    }
    let last = store::block_round(table, block);
    if last.0 <= round.0 {
        return last.0 == round.0;
    }
    goes_on(table, block, author, Round(round.0 + 1))
}

// So for all sixteen.
fn is_row_together(chain: Chain, round: Round) -> bool
    requires { round ≤ chain.settings.now.ceiling }
    ensures { let c = chain.entry in
        Tells result (RowTogether c.table.now c.blocks round) }
{
    for i in 0..16 {
        if !is_place_together(chain, Member(i), round) {
            return false;
        }
    }
    true
}

/// Do the blocks of the chain hang together?
pub(crate) fn is_together(chain: Chain) -> bool
    ensures { let c = chain.entry in
        Tells result (Together c.settings.now.ceiling c.table.now c.blocks) }
{
    let settings = chain.settings;
    let ceiling = settings.ceiling;
    for q in 0..ceiling.0 {
        if !is_row_together(chain, Round(q + 1)) {
            return false;
        }
    }
    true
}
