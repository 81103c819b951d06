//! What a block holds: its certificates are counted along the links of its places, and put into a list row by row.
//!
//! The place of member m and round r is number 16 r + m.

ghost use Rattle.std.specs.Prelude.{◌≡◌, true, false, [], ◌+◌, ◌*◌, ◌/◌, ◌<◌, ◌≤◌, length};
ghost use Rattle.base.specs.Puts.{Puts};
ghost use Rattle.store.specs.Table.{Row};
ghost use Rattle.chain_committees.specs.BlockChanges.{start_at};
ghost use Rattle.chain_committees.specs.Links.{Marked};
ghost use Rattle.words.specs.Lengths.{held_length};
ghost use Rattle.words.specs.Proposals.{held_words};
ghost use Rattle.spans.specs.Rows.{place_held, row_held, block_held, HeldFits, PutsHeld};

use chain_committees::changes::links;
use chain_committees::walk::Walk;
use store::record;
use terms::{Member, Proposal, Round};
use words::bodies::lengths::HELD;
use words::proposals;

// Puts a certificate of `block` from `at` on, eighteen words; gives the next place of the list.
fn put_held(list: &mut [u32], at: usize, proposal: Proposal, endorsers: u16, block: u32) -> usize
    requires { at + held_length ≤ length list.old }
    ensures { Puts list.old list.new at result (held_words proposal endorsers block) held_length }
{
    proposals::put_held(&mut list[at..at + HELD], proposal, endorsers, block);
    at + HELD
}

/// Does `block` hold a certificate at a place?
#[tactic(auto, using(crate::proofs::RowLaws::held_absent, crate::proofs::RowLaws::held_other))]
pub(crate) fn is_held(table: &[u32], block: u32, place: u32) -> bool
    requires { Row table.now (place / 16) }
    ensures yes { result ≡ true → Marked table.now block place }
    ensures no { result ≡ false → place_held table.now block place ≡ [] }
{
    let author = Member(place % 16);
    let round = Round(place / 16);
    store::held(table, author, round) && record::mark(table, author, round) == block
}

// Puts what `block` holds at a place, from `at` on.
#[tactic(auto, unfolding(crate::specs::Spans::words_of))]
fn put_place(list: &mut [u32], at: usize, table: &[u32], block: u32, place: u32) -> usize
    requires row { Row table.now (place / 16) }
    requires room { HeldFits list.old at (place_held table.now block place) }
    ensures { PutsHeld list.old list.new at result table.now block
        (place_held table.now block place) }
{
    if is_held(table, block, place) {
        let author = Member(place % 16);
        let round = Round(place / 16);
        let proposal = record::proposal_at(table, author, round);
        let endorsers = record::endorsers(table, author, round);
        put_held(list, at, proposal, endorsers, block)
    } else {
        at
    }
}

/// Puts what `block` holds in the row of a place, from `at` on: numbers rise from that of `start`, with 0 after 15. Gives the next place of the list.
pub(crate) fn put_row(
    list: &mut [u32],
    at: usize,
    table: &[u32],
    block: u32,
    start: Member,
    place: u32,
) -> usize
    requires row { Row table.now (place / 16) }
    requires start { start.0 ≤ 16 }
    requires room { HeldFits list.old at (row_held table.now block start.0 (place / 16)) }
    ensures { PutsHeld list.old list.new at result table.now block
        (row_held table.now block start.0 (place / 16)) }
{
    let row = place / 16 * 16;
    let mut to = at;
    for i in 0..16 {
        to = put_place(list, to, table, block, row + (start.0 + i) % 16);
    }
    to
}

/// With whom the rows of the block after the first ones, `before` in number, start, 16 for none: the leader of its round, told by a walk that goes on to this block.
pub(crate) fn start(walk: &mut Walk, before: u32) -> Member
    requires { before < walk.old.chain.blocks }
    ensures chain { walk.new.chain ≡ walk.old.chain }
    ensures start { let c = walk.old.chain in
        result.0 ≡ start_at c.settings.now c.table.now before }
{
    walk.begin(before + 1);
    walk.start(before)
}

/// Puts what the block after the first ones, `before` in number, holds, from `at` on, where its rows start with member `start`; gives the next place of the list.
pub(crate) fn put(walk: &Walk, start: Member, before: u32, list: &mut [u32], at: usize) -> usize
    requires before { before < walk.now.chain.blocks }
    requires start { let c = walk.now.chain in
        start.0 ≡ start_at c.settings.now c.table.now before }
    requires room { let c = walk.now.chain in
        HeldFits list.old at (block_held c.settings.now c.table.now before) }
    ensures { let c = walk.now.chain in
        PutsHeld list.old list.new at result c.table.now (before + 1)
        (block_held c.settings.now c.table.now before) }
{
    let ceiling = walk.chain.settings.ceiling;
    let end = ceiling.0 * 16 + 16;
    let block = before + 1;
    let mut to = at;
    let mut place = walk.head[block as usize] as u32;
    while place < end {
        to = put_row(list, to, walk.chain.table, block, start, place);
        place = links::run_end(walk.next, place / 16 * 16 + 16, place);
    }
    to
}

/// How many certificates the block after the first ones, `before` in number, holds.
pub(crate) fn count(walk: &Walk, before: u32) -> u32
    requires { before < walk.now.chain.blocks }
    ensures count { let c = walk.now.chain in
        result ≡ length (block_held c.settings.now c.table.now before) }
    ensures most { result ≤ 16 * 1024 + 16 }
{
    let ceiling = walk.chain.settings.ceiling;
    let end = ceiling.0 * 16 + 16;
    let mut count = 0;
    let mut place = walk.head[before as usize + 1] as u32;
    while place < end {
        count += 1;
        place = walk.next[place as usize] as u32;
    }
    count
}
