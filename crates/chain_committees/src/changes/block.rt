//! What the certificates of a block do to a committee: rounds rise, and within a round numbers rise from that of a member on, with 0 after 15.
//!
//! The place of member m and round r is number 16 r + m.

ghost use Rattle.std.specs.Prelude.{◌≡◌, if◌then◌else◌, ◌+◌, ◌*◌, ◌/◌, ◌%◌, nat_le};
ghost use Rattle.store.specs.Table.{content_at};
ghost use Rattle.committee.specs.Changes.{changes};
ghost use Rattle.chain_committees.specs.BlockChanges.{slot_change, place_change, record_change};
ghost use Rattle.chain_committees.specs.LinkRuns.{run_over, row_over, rows_over, run_end};
ghost use Rattle.chain_committees.specs.Ready.{SlotReady, RecordReady, RunReady, RowReady, BlockReady};

use committee::change;
use terms::sheet::Weight;
use terms::{Member, Round};

// Slot `index` of a record that has `count` transactions.
#[tactic(auto, using(crate::proofs::BlockChangeLaws::slot_words))]
fn apply_slot(
    table: &[u32],
    author: Member,
    round: Round,
    count: u32,
    index: u32,
    weights: &mut [Weight; 16],
)
    requires { SlotReady table.now author.0 round count index weights.old }
    ensures { weights.new ≡ slot_change table.now author.0 round index weights.old }
{
    let kind = store::record::kind_at(table, author, round, index);
    let number = store::record::number_at(table, author, round, index);
    let amount = store::record::amount_at(table, author, round, index);
    change::apply(weights, index < count, kind, number, amount);
}

/// Applies the transactions of a record, in order, to the committee `weights`. All four slots are looked at, however many there are.
#[tactic(auto, using(base::proofs::FoldLaws::fold_to_none, base::proofs::FoldLaws::fold_more, crate::proofs::BlockChangeLaws::record_slots, crate::proofs::BlockChangeLaws::record_empty, crate::proofs::BoundLaws::slots_total))]
pub fn apply_record(table: &[u32], author: Member, round: Round, weights: &mut [Weight; 16])
    requires { RecordReady table.now author.0 round weights.old }
    ensures { weights.new
        ≡ changes (content_at table.now author.0 round).transactions weights.old }
{
    let count = store::record::count(table, author, round);
    if count == 0 {
        return;
    }
    for k in 0..4 {
        apply_slot(table, author, round, count, k, weights);
    }
}

// A place that comes while a run goes on: it counts from place `from` on.
#[tactic(auto, unfolding(crate::specs::BlockChanges::record_change))]
fn apply_from(table: &[u32], from: u32, place: u32, weights: &mut [Weight; 16])
    requires { RecordReady table.now (place % 16) (place / 16) weights.old }
    ensures { weights.new ≡ (if nat_le from place then record_change table.now place weights.old
        else weights.old) }
{
    if from <= place {
        apply_record(table, Member(place % 16), Round(place / 16), weights);
    }
}

// The places of a row from `place` on, one after the other: those below `end` and not below `from`. Gives the first one from `end` on.
#[tactic(auto, using(crate::proofs::RunLaws::run_stop, crate::proofs::RunLaws::end_stop, crate::proofs::RunLaws::run_left, crate::proofs::RunLaws::end_left, crate::proofs::RunLaws::run_all, crate::proofs::RunLaws::end_all, crate::proofs::BoundLaws::from_total))]
fn apply_run(
    table: &[u32],
    next: &[u16],
    from: u32,
    end: u32,
    place: u32,
    weights: &mut [Weight; 16],
) -> u32
    requires { RunReady table.now next.now end weights.old }
    ensures { (weights.new ≡ run_over (record_change table.now) next.now from end 16 place
        weights.old) × (result ≡ run_end next.now end 16 place) }
{
    let mut q = place;
    for i in 0..16u32 {
        if end <= q {
            return q;
        }
        apply_from(table, from, q, weights);
        q = next[q as usize] as u32;
    }
    q
}

// The places of the row of `place`: from member `start` on, then those below it. Gives the first one after the row.
#[tactic(auto, using(crate::proofs::BoundLaws::run_total), unfolding(crate::specs::LinkRuns::row_over))]
fn apply_row(
    table: &[u32],
    next: &[u16],
    start: Member,
    place: u32,
    weights: &mut [Weight; 16],
) -> u32
    requires { RowReady table.now next.now start.0 (place / 16) weights.old }
    ensures { (weights.new ≡ row_over (record_change table.now) next.now start.0 place weights.old)
        × (result ≡ run_end next.now (place / 16 * 16 + 16) 16 place) }
{
    let row = place / 16 * 16;
    let after = apply_run(table, next, row + start.0, row + 16, place, weights);
    apply_run(table, next, row, row + start.0, place, weights);
    after
}

/// Applies `block`, whose rows go up to the ceiling and start with member `start`, 16 for none, to the committee `weights`.
/// Blocks count from 1, 511 at most. `head` and `next` link the places of each block.
// Seven parameters: a walk lends its parts one by one, since it changes its own weights.
#[tactic(auto, using(crate::proofs::BoundLaws::rows_total))]
pub(crate) fn apply_block(
    table: &[u32],
    head: &[u16; 512],
    next: &[u16],
    block: u32,
    start: Member,
    ceiling: Round,
    weights: &mut [Weight; 16],
)
    requires { BlockReady table.now head.now next.now block start.0 ceiling weights.old }
    ensures { weights.new ≡ rows_over (place_change table.now block) start.0 ceiling weights.old }
{
    let end = ceiling.0 * 16 + 16;
    let mut place = head[block as usize] as u32;
    while place < end {
        place = apply_row(table, next, start, place, weights);
    }
}
