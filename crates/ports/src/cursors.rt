//! Where a reader stands in the listing of a chain: the last byte that it has read, and the line after it (docs/RULES.md, "Serial ports").
//!
//! A reader stands at a place, 16 r + m for the certificate of member m and round r, or at 0, before the first line.

ghost use Rattle.std.specs.Prelude.{◌≡◌, true, false, List, ◌≢◌, ℕ, ◌+◌, ◌*◌, ◌/◌, ◌%◌, ◌-◌, ◌<◌, ◌≤◌, length, get_or, Some, IfSome};
ghost use Rattle.store.specs.Table.{Within, mark_at};
ghost use Rattle.base.specs.Puts.{Puts};
ghost use Rattle.chain_committees.specs.BlockChanges.{start_at};
ghost use Rattle.chain_committees.specs.Links.{Marked};
ghost use Rattle.extents.specs.Together.{Together, Hinted};
ghost use Rattle.ports.specs.Places.{line_at, HasLine, LineRoom};
ghost use Rattle.ports.specs.Next.{first_place, lines_from, lines_beyond, key_place, key_of, KeyFound, BlockFound, LinePlace, NextInBlock};

use crate::rows::{self, ByRows};
use chain_committees::chain::Chain;
use chain_committees::walk::Walk;
use chain_committees::{cache, over_blocks};
use extents::Hints;
use terms::{Member, Round};

// The line of `place`, from the start of a buffer on; gives its length.
#[tactic(auto, unfolding(crate::specs::Places::line_at))]
fn put_line(table: &[u32], place: u32, out: &mut [u8]) -> usize
    requires { LineRoom table.now place out.old }
    ensures { Puts out.old out.new 0 result (line_at table.now (place % 16) (place / 16)) 141 }
{
    let author = Member(place % 16);
    let round = Round(place / 16);
    let block = store::record::mark(table, author, round);
    let block_round = store::block_round(table, block);
    listing::list_place(table, block, block_round, author, round, out, 0)
}

/// The length of the line of `place`, at most 141 bytes; `place` is of a certificate that is held and in a block.
pub(crate) fn line_length(table: &[u32], place: u32) -> u32
    requires { HasLine table.now place }
    ensures { (result ≡ length (line_at table.now (place % 16) (place / 16))) × (result ≤ 141) }
{
    let mut line = [0u8; 141];
    put_line(table, place, &mut line) as u32
}

/// Byte `index`, from 0 on, of the line of `place`, which has more than `index`.
#[tactic(auto, using(crate::proofs::LineBytes::byte_put))]
pub(crate) fn line_byte(table: &[u32], place: u32, index: u32) -> u8
    requires { HasLine table.now place
        × (index < length (line_at table.now (place % 16) (place / 16))) }
    ensures { result ≡ get_or (line_at table.now (place % 16) (place / 16)) index 0 }
{
    let mut line = [0u8; 141];
    put_line(table, place, &mut line);
    line[index as usize]
}

// The place of `key`, where rows start with member `start`.
fn place_of(start: Member, key: u32) -> u32
    requires { start.0 ≤ 16 }
    ensures { result ≡ key_place start.0 key }
{
    key / 16 * 16 + (start.0 + key % 16) % 16
}

// From `key` on, the first one with a certificate of `block`, whose rows start with member `start`; the end if there is none.
fn next_key(chain: Chain, together: bool, block: u32, start: Member, key: u32) -> u32
    requires block { (0 < block) × (block ≤ chain.blocks) }
    requires to { (start.0 ≤ 16) × (key ≤ chain.settings.now.ceiling * 16 + 16) }
    requires together { let c = chain in
        together ≡ true → Together c.settings.now.ceiling c.table.now c.blocks }
    ensures { let c = chain.entry in
        KeyFound c.table.now c.settings.now.ceiling block start.0 key result }
{
    let ceiling = chain.settings.ceiling;
    let top = extents::top(chain, together, block);
    (key..top.0 * 16 + 16)
        .find(|&i| rows::is_marked(chain.table, block, place_of(start, i)))
        .unwrap_or(ceiling.0 * 16 + 16)
}

// The first key with a certificate of `block`, whose rows start with member `start`; the end if there is none.
fn first_key(chain: Chain, together: bool, block: u32, start: Member) -> u32
    requires block { (0 < block) × (block ≤ chain.blocks) }
    requires to { start.0 ≤ 16 }
    requires together { let c = chain in
        together ≡ true → Together c.settings.now.ceiling c.table.now c.blocks }
    ensures { let c = chain.entry in
        KeyFound c.table.now c.settings.now.ceiling block start.0 16 result }
{
    let low = extents::low(chain, together, block);
    next_key(chain, together, block, start, low.0 * 16 + 16)
}

// The first block after `block` that has a certificate; one above the last if there is none.
fn next_block(walk: &Walk, block: u32) -> u32
    requires { block ≤ walk.now.chain.blocks }
    ensures found { let c = walk.now.chain in
        BlockFound c.table.now c.settings.now.ceiling c.blocks block result }
    ensures later { block < result }
{
    let ceiling = walk.chain.settings.ceiling;
    let end = ceiling.0 * 16 + 16;
    let last = walk.chain.blocks + 1;
    (block + 1..last)
        .find(|&j| (walk.head[j as usize] as u32) < end)
        .unwrap_or(last)
}

// The key after that of `place`.
fn key_after(start: Member, place: u32) -> u32
    requires { (start.0 ≤ 16) × (place < 16400) }
    ensures { result ≡ key_of start.0 (place % 16) (place / 16) + 1 }
{
    place / 16 * 16 + (place % 16 + (16 - start.0 % 16)) % 16 + 1
}

// The place after `place` in the order of its block, if there is one, where the block's rows start with member `start`.
#[tactic(auto, using(crate::proofs::SearchLaws::next_key_in, crate::proofs::SearchLaws::no_key_in))]
fn next_from(chain: Chain, together: bool, start: Member, place: u32) -> Option<u32>
    requires together { let c = chain in
        together ≡ true → Together c.settings.now.ceiling c.table.now c.blocks }
    requires place { LinePlace chain.table.now chain.settings.now.ceiling chain.blocks place }
    requires start { start.0 ≡ start_at chain.settings.now chain.table.now
        (mark_at chain.table.now (place % 16) (place / 16) - 1) }
    requires to { start.0 ≤ 16 }
    ensures { let c = chain.entry in
        NextInBlock c.settings.now c.table.now c.blocks place result }
{
    let block = store::record::mark(chain.table, Member(place % 16), Round(place / 16));
    let key = next_key(chain, together, block, start, key_after(start, place));
    let ceiling = chain.settings.ceiling;
    if key < ceiling.0 * 16 + 16 {
        Some(place_of(start, key))
    } else {
        None
    }
}

// The same, by a walk that goes on to this block.
fn next_in_block(walk: &mut Walk, place: u32) -> Option<u32>
    requires { let c = walk.old.chain in
        LinePlace c.table.now c.settings.now.ceiling c.blocks place }
    ensures chain { walk.new.chain ≡ walk.old.chain }
    ensures next { let c = walk.new.chain in
        NextInBlock c.settings.now c.table.now c.blocks place result }
{
    let block = store::record::mark(walk.chain.table, Member(place % 16), Round(place / 16));
    walk.begin(block);
    next_from(walk.chain, false, walk.start(block - 1), place)
}

// The place of the first line of the blocks after `block`, if there is one, by a walk that goes on to the block that has it.
fn first_after(walk: &mut Walk, block: u32) -> Option<u32>
    requires { block ≤ walk.old.chain.blocks }
    ensures { let c = walk.old.chain in
        result ≡ first_place (lines_beyond c.settings.now c.table.now c.blocks block) }
{
    let next = next_block(walk, block);
    if walk.chain.blocks < next {
        return None;
    }
    walk.begin(next);
    let start = walk.start(next - 1);
    let key = first_key(walk.chain, false, next, start);
    Some(place_of(start, key))
}

// The place of the line after that of `place`, if there is one; the first line's after 0.
#[tactic(auto, using(crate::proofs::SearchLaws::from_start), unfolding(crate::specs::Next::NextInBlock))]
fn place_after(walk: &mut Walk, place: u32) -> Option<u32>
    requires { let c = walk.old.chain in
        place ≢ 0 → LinePlace c.table.now c.settings.now.ceiling c.blocks place }
    ensures { let c = walk.old.chain in
        result ≡ first_place (lines_from c.settings.now c.table.now c.blocks place) }
{
    if place == 0 {
        return first_after(walk, 0);
    }
    if let Some(next) = next_in_block(walk, place) {
        return Some(next);
    }
    let block = store::record::mark(walk.chain.table, Member(place % 16), Round(place / 16));
    first_after(walk, block)
}

// The place of the line after that of `place`, by a walk over the blocks up to that of the line. A function of its own, since a function clears its words where it is entered.
fn walked_after(chain: Chain, place: u32) -> Option<u32>
    requires { place ≢ 0
        → LinePlace chain.table.now chain.settings.now.ceiling chain.blocks place }
    ensures { let c = chain.entry in
        result ≡ first_place (lines_from c.settings.now c.table.now c.blocks place) }
{
    over_blocks!(chain, walk => place_after(&mut walk, place))
}

// The place of the first line of the block after the first ones, `before` in number, if it has one and the committee of its round is cached.
fn cached_first(chain: Chain, hints: Hints, before: u32) -> Option<u32>
    requires before { before ≤ chain.blocks }
    requires hints { let c = chain in Hinted c.settings.now c.table.now c.blocks hints }
    ensures { let c = chain.entry in
        IfSome result (λ v. Some v
        ≡ first_place (lines_beyond c.settings.now c.table.now c.blocks before)) }
{
    if before == chain.blocks {
        return None;
    }
    let Some(start) = cache::start_of(hints.cache, chain, before) else {
        return None;
    };
    let key = first_key(chain, hints.together, before + 1, start);
    let ceiling = chain.settings.ceiling;
    if key < ceiling.0 * 16 + 16 {
        Some(place_of(start, key))
    } else {
        None
    }
}

// The place of the line after that of `place`, the first one's after 0, where cached committees tell it.
#[tactic(auto, using(crate::proofs::SearchLaws::from_start), unfolding(crate::specs::Next::NextInBlock))]
fn cached_after(chain: Chain, hints: Hints, place: u32) -> Option<u32>
    requires hints { let c = chain in Hinted c.settings.now c.table.now c.blocks hints }
    requires place { place ≢ 0
        → LinePlace chain.table.now chain.settings.now.ceiling chain.blocks place }
    ensures { let c = chain.entry in
        IfSome result (λ v. Some v
        ≡ first_place (lines_from c.settings.now c.table.now c.blocks place)) }
{
    if place == 0 {
        return cached_first(chain, hints, 0);
    }
    let block = store::record::mark(chain.table, Member(place % 16), Round(place / 16));
    let Some(start) = cache::start_of(hints.cache, chain, block - 1) else {
        return None;
    };
    match next_from(chain, hints.together, start, place) {
        Some(next) => Some(next),
        None => cached_first(chain, hints, block),
    }
}

/// The place of the line after that of `place` in the listing of a chain, if there is one; the first line's where `place` is 0. The listing is not made for it, and a leader is looked for only where the rows do not tell it: in the committees that are cached, and then by a walk over the blocks.
pub(crate) fn line_after(chain: Chain, hints: Hints, place: u32) -> Option<u32>
    requires hints { let c = chain in Hinted c.settings.now c.table.now c.blocks hints }
    requires place { place ≢ 0
        → LinePlace chain.table.now chain.settings.now.ceiling chain.blocks place }
    ensures { let c = chain.entry in
        result ≡ first_place (lines_from c.settings.now c.table.now c.blocks place) }
{
    match rows::line_after(chain, hints.together, place) {
        ByRows::Nothing => return None,
        ByRows::Line(next) => return Some(next),
        ByRows::Untold => {}
    }
    match cached_after(chain, hints, place) {
        Some(next) => Some(next),
        None => walked_after(chain, place),
    }
}
