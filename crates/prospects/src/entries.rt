//! Entries of a preview put into a lent list: block number, certificate round, author. Each function returns the next place (docs/RULES.md, "Preview").

ghost use Rattle.std.specs.Prelude.{◌+◌, ◌-◌, ◌≤◌, ◌<◌, length};
ghost use Rattle.base.specs.Sets.{contains};
ghost use Rattle.base.specs.Puts.{Puts};
ghost use Rattle.prospects.specs.Entries.{entry_words, entry_if, row_entries, rows_entries, in_sets, RowsFit};

use terms::{Member, Round};

/// The anchor of a block that would be made, told beside its round.
#[derive(Debug, Clone, Copy)]
pub(crate) struct Anchor {
    /// The block's number.
    pub block: u32,
    /// The author of the anchor, from whom on the entries of each round are put.
    pub author: Member,
}

// One entry.
#[tactic(auto, using(crate::proofs::EntryLaws::entry_put))]
fn put_entry(list: &mut [u32], at: usize, block: u32, author: Member, round: Round) -> usize
    requires { at + 3 ≤ length list.old }
    ensures { Puts list.old list.new at result (entry_words block round author.0) 3 }
{
    list[at] = block;
    list[at + 1] = round.0;
    list[at + 2] = author.0;
    at + 3
}

// That of `author`, where it is in the set `authors`.
#[tactic(auto, using(crate::proofs::EntryLaws::entry_there, crate::proofs::EntryLaws::entry_none))]
fn put_member(
    list: &mut [u32],
    at: usize,
    authors: u32,
    block: u32,
    author: Member,
    round: Round,
) -> usize
    requires { (author.0 < 16)
        × (at + length (entry_if (contains authors author.0) block round author.0)
        ≤ length list.old) }
    ensures { Puts list.old list.new at result (entry_if (contains authors author.0) block round
        author.0) (length (entry_if (contains authors author.0) block round author.0)) }
{
    if base::contains(authors, author.0) {
        put_entry(list, at, block, author, round)
    } else {
        at
    }
}

// Those of the set `authors` of a round: numbers rise from that of `start`, with 0 after 15.
fn put_row(
    list: &mut [u32],
    at: usize,
    authors: u32,
    block: u32,
    start: Member,
    round: Round,
) -> usize
    requires { (start.0 < 16)
        × (at + length (row_entries (contains authors) block round start.0 16)
        ≤ length list.old) }
    ensures { Puts list.old list.new at result (row_entries (contains authors) block round start.0
        16) (length (row_entries (contains authors) block round start.0 16)) }
{
    let mut to = at;
    for i in 0..16u32 {
        let member = (start.0 + i) % 16;
        to = put_member(list, to, authors, block, Member(member), round);
    }
    to
}

/// Puts entries of the anchor's block into the list from `at` on, by round: for each round above `low` up to `top` those of the set of authors that `sets` has for it, from the anchor's author on. The place behind them.
pub(crate) fn put_rows(
    list: &mut [u32],
    at: usize,
    sets: &[u32; 1025],
    low: Round,
    top: Round,
    anchor: Anchor,
) -> usize
    requires { RowsFit list.old at sets.now anchor.block low top anchor.author.0 }
    ensures { Puts list.old list.new at result (rows_entries (in_sets sets.now) anchor.block
        anchor.author.0 low (top - low))
        (length (rows_entries (in_sets sets.now) anchor.block anchor.author.0 low
        (top - low))) }
{
    let last = low.0;
    let rounds = top.0 - last;
    let mut to = at;
    for i in 0..rounds {
        let r = last + 1 + i;
        let authors = sets[r as usize];
        to = put_row(list, to, authors, anchor.block, anchor.author, Round(r));
    }
    to
}
