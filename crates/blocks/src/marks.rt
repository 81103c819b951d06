//! The marks of a history, and the block of one anchor (docs/RULES.md, "History" and "Commit").

ghost use Rattle.std.specs.Prelude.{◌≡◌, ◌<◌};
ghost use Rattle.store.specs.Table.{Within, Row};
ghost use Rattle.blocks.specs.Blocks.{mark_place, mark_row, mark_history, add_block};
ghost use Rattle.blocks.specs.Seen.{Seen};
ghost use Rattle.blocks.specs.WalkReady.{HistoryReady, NewBlockReady};

use crate::histories;
use store::writes;
use terms::{Member, Round};

// Puts the certificate of `author` and `round` into `block`, if `author` is in `authors` and it is in no block yet.
#[tactic(auto, unfolding(crate::specs::Blocks::mark_place))]
fn mark_place(table: &mut [u32], block: u32, authors: u32, author: Member, round: Round)
    requires { Within table.old author.0 round }
    ensures { table.new ≡ mark_place block authors round author.0 table.old }
{
    if base::contains(authors, author.0) && store::record::mark(table, author, round) == 0 {
        writes::set_mark(table, author, round, block);
    }
}

// So for all sixteen.
#[tactic(auto, using(base::proofs::FoldLaws::fold_more, base::proofs::Ranges::fold_none), unfolding(crate::specs::Blocks::mark_row))]
fn mark_row(table: &mut [u32], block: u32, authors: u32, round: Round)
    requires { Row table.old round }
    ensures { table.new ≡ mark_row block authors round table.old }
{
    for a in 0..16u32 {
        mark_place(table, block, authors, Member(a), round);
    }
}

// Puts what is in no block yet, of the history of the set `authors` of round top, into `block`.
// seen has what earlier walks reached, by round: where a walk reaches nothing else it ends.
#[tactic(auto, using(crate::proofs::SeenLaws::seen_end), unfolding(base::specs::Sets::is_subset))]
fn mark_history(table: &mut [u32], seen: &mut [u32; 1025], block: u32, authors: u32, top: Round)
    requires { HistoryReady table.old seen.old top × (0 < block) }
    ensures { (table.new ≡ mark_history block top authors table.old)
        × Seen table.new seen.new seen.new }
{
    let mut r = top.0;
    let mut here = authors;
    while 0 < r {
        let q = r - 1;
        let old = seen[r as usize];
        if base::is_subset(here, old) {
            return;
        }
        let next = histories::step_down(table, here, Round(r));
        mark_row(table, block, here, Round(r));
        seen[r as usize] = base::union(old, here);
        here = next;
        r = q;
    }
}

/// Makes `block`, from 1 on, of the anchor of `author` and `round`: what is in no block yet, of the anchor's history, gets the mark `block`, and row `block` this round. What the walk reached is added to seen.
pub fn add_block(
    table: &mut [u32],
    seen: &mut [u32; 1025],
    block: u32,
    author: Member,
    round: Round,
)
    requires { NewBlockReady table.old seen.old block author.0 round }
    ensures { (table.new ≡ add_block block author.0 round table.old)
        × Seen table.new seen.new seen.new }
{
    let anchor = base::only(author.0);
    mark_history(table, seen, block, anchor, round);
    writes::set_block(table, block, round);
}
