//! The blocks that a commit would make, listed.
//!
//! Nothing is written but the list: what an anchor's history has that is in no block and that no earlier anchor reached (specs/Reaching), as entries in the blocks' order (specs/Prospects, specs/Entries). Equal to what a commit would make: preview.
#![tactic(auto)]

pub mod entries;
pub mod reaching;

ghost use Rattle.std.specs.Prelude.{◌≡◌, ◌-◌, true, length};
ghost use Rattle.base.specs.Puts.{Puts};
ghost use Rattle.prospects.specs.Prospects.{words_after};
ghost use Rattle.prospects.specs.Reaching.{Whole};
ghost use Rattle.prospects.specs.Ready.{BlockReady, BlockListed, StepReady, StepListed, StepsReady};

use entries::Anchor;
use reaching::Reached;
use terms::{Member, Round};

/// How many blocks there would be, and the next place of the list.
#[derive(Debug, Clone, Copy)]
pub(crate) struct Listed {
    pub blocks: u32,
    pub next: usize,
}

// The block of the anchor of `round`.
fn list_block<const WHOLE: bool>(
    table: &[u32],
    reached: &mut Reached,
    anchor: Anchor,
    round: Round,
    list: &mut [u32],
    at: usize,
) -> usize
    requires { BlockReady WHOLE table.now reached.old.seen reached.old.fresh anchor round
        list.old at }
    ensures { BlockListed WHOLE table.now reached.old.seen anchor round list.old list.new at result
        reached.new.seen reached.new.fresh }
{
    let authors = base::only(anchor.author.0);
    let low = reaching::go_down::<WHOLE>(table, reached, authors, round);
    entries::put_rows(list, at, &reached.fresh, low, round, anchor)
}

// The block of the anchor of `round`, if it has one, behind what is listed.
fn list_step<const WHOLE: bool>(
    table: &[u32],
    reached: &mut Reached,
    leaders: &[u8],
    round: Round,
    listed: Listed,
    list: &mut [u32],
) -> Listed
    requires { StepReady WHOLE table.now reached.old.seen reached.old.fresh leaders.now round
        listed.blocks list.old listed.next }
    ensures { StepListed WHOLE table.now reached.old.seen leaders.now round listed.blocks list.old
        list.new listed.next result.blocks result.next reached.new.seen reached.new.fresh }
{
    let author = leaders[round.0 as usize];
    if author < 16 {
        let anchor = Anchor {
            block: listed.blocks + 1,
            author: Member(author as u32),
        };
        Listed {
            blocks: anchor.block,
            next: list_block::<WHOLE>(table, reached, anchor, round, list, listed.next),
        }
    } else {
        listed
    }
}

// The list of both public functions: where `WHOLE`, by walks that end at the first row in which they find nothing new, and else by walks that end at the first row in which they reach nothing that earlier ones did not.
fn list_by<const WHOLE: bool>(
    table: &[u32],
    leaders: &[u8],
    low: Round,
    top: Round,
    blocks: u32,
    list: &mut [u32],
) -> usize
    requires ready { StepsReady table.now leaders.now low top blocks list.old }
    requires whole { WHOLE ≡ true → Whole table.now leaders.now low top }
    ensures { Puts list.old list.new 0 result (words_after table.now leaders.now low
        (top - low) blocks)
        (length (words_after table.now leaders.now low (top - low) blocks)) }
{
    let last = low.0;
    let rounds = top.0 - last;
    let mut reached = Reached {
        seen: [0; 1025],
        fresh: [0; 1025],
    };
    let mut listed = Listed { blocks, next: 0 };
    for i in 0..rounds {
        let round = Round(last + 1 + i);
        listed = list_step::<WHOLE>(table, &mut reached, leaders, round, listed, list);
    }
    listed.next
}

/// Lists the blocks of the anchors above round `low` up to round `top`, oldest first, where there are `blocks` already: three words for each certificate, from the front of the list. `leaders` has the authors of the anchors by round, 16 for none. The number of words that were put.
pub fn list_blocks(
    table: &[u32],
    leaders: &[u8],
    low: Round,
    top: Round,
    blocks: u32,
    list: &mut [u32],
) -> usize
    requires { StepsReady table.now leaders.now low top blocks list.old }
    ensures { Puts list.old list.new 0 result (words_after table.now leaders.now low
        (top - low) blocks)
        (length (words_after table.now leaders.now low (top - low) blocks)) }
{
    list_by::<false>(table, leaders, low, top, blocks, list)
}

/// As `list_blocks`, where the anchors are held and the histories of what is in blocks are in blocks: a walk ends at the first row in which it finds nothing new.
pub fn list_whole(
    table: &[u32],
    leaders: &[u8],
    low: Round,
    top: Round,
    blocks: u32,
    list: &mut [u32],
) -> usize
    requires ready { StepsReady table.now leaders.now low top blocks list.old }
    requires whole { Whole table.now leaders.now low top }
    ensures { Puts list.old list.new 0 result (words_after table.now leaders.now low
        (top - low) blocks)
        (length (words_after table.now leaders.now low (top - low) blocks)) }
{
    list_by::<true>(table, leaders, low, top, blocks, list)
}
