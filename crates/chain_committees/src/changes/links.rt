// The certificates of each block, by one pass over the held ones, going down. The place of member m and round r is number 16 r + m.
// head[k] is the first place of block k, and next[p] the first one after place p of the same block; where there is none it is the end, one above the last place.

ghost use Rattle.std.specs.Prelude.{◌≡◌, ℕ, ◌+◌, ◌*◌, ◌<◌, ◌≤◌, nat_le, get_or, set, length};
ghost use Rattle.chain_committees.specs.Rows.{RowsTo, RowRoom};
ghost use Rattle.chain_committees.specs.Links.{Links, AllLinked};
ghost use Rattle.chain_committees.specs.LinkRuns.{run_end};

use terms::{Member, Round};

/// Up to this ceiling the places fit into `FEW` words.
pub const FEW_ROUNDS: u32 = 64;

/// The places of the rounds from 0 up to 64, sixteen each.
pub const FEW: usize = 16 * (64 + 1);

/// The places of the rounds from 0 up to 1,024, sixteen each.
pub const MANY: usize = 16 * (1024 + 1);

/// Do the places of the rounds up to `ceiling` fit into `FEW` words?
pub fn are_few(ceiling: Round) -> bool
    ensures { result ≡ nat_le ceiling 64 }
{
    ceiling.0 <= FEW_ROUNDS
}

// `place` becomes the first one of `block`.
fn link(head: &mut [u16; 512], next: &mut [u16], block: u32, place: u16)
    requires { (block < 512) × (place < length next.old) }
    ensures { (head.new ≡ set head.old block place)
        × (next.new ≡ set next.old place (get_or head.old block 0)) }
{
    next[place as usize] = head[block as usize];
    head[block as usize] = place;
}

// A place, if it is held and in a block.
fn link_place(table: &[u32], head: &mut [u16; 512], next: &mut [u16], author: Member, round: Round)
    requires { RowRoom table.now next.old round × (author.0 < 16) }
    ensures { (a e : ℕ) → a ≡ round * 16 + author.0 → Links table.now (a + 1) e head.old next.old
        → Links table.now a e head.new next.new }
{
    if !store::held(table, author, round) {
        return;
    }
    let block = store::record::mark(table, author, round);
    if block < 512 {
        link(head, next, block, (round.0 * 16 + author.0) as u16);
    }
}

// The places of a row.
fn link_row(table: &[u32], head: &mut [u16; 512], next: &mut [u16], round: Round)
    requires { RowRoom table.now next.old round }
    ensures { (a e : ℕ) → a ≡ round * 16 → Links table.now (a + 16) e head.old next.old
        → Links table.now a e head.new next.new }
{
    if store::held_set(table, round) == 0 {
        return;
    }
    for i in 0..16 {
        link_place(table, head, next, Member(15 - i), round);
    }
}

/// Links the places of the rounds 1 to `ceiling`, where none is linked yet: `head` has the end at each block.
/// Both lists are written; `next` has a word for each place, and those of places in no block stay.
pub(crate) fn link_rows(table: &[u32], head: &mut [u16; 512], next: &mut [u16], ceiling: Round)
    requires { RowsTo table.now ceiling
        × Links table.now (ceiling * 16 + 16) (ceiling * 16 + 16) head.old next.old }
    ensures { AllLinked table.now ceiling head.new next.new }
{
    let end = ceiling.0;
    for i in 0..end {
        link_row(table, head, next, Round(end - i));
    }
}

/// The places of each block of a table, up to the ceiling: gives the first place of each block, and writes the others into `next`, which has a word for each place.
pub fn linked(table: &[u32], next: &mut [u16], ceiling: Round) -> [u16; 512]
    requires rows { RowsTo table.now ceiling }
    requires places { ceiling * 16 + 16 ≤ length next.old }
    ensures { AllLinked table.now ceiling result next.new }
{
    let mut head = [(ceiling.0 * 16 + 16) as u16; 512];
    link_rows(table, &mut head, next, ceiling);
    head
}

/// The first place from `end` on, going by `next` from `place` of the same row. No more than sixteen steps are made.
#[tactic(auto, using(crate::proofs::RunLaws::end_stop, crate::proofs::RunLaws::end_left, crate::proofs::RunLaws::end_all))]
pub fn run_end(next: &[u16], end: u32, place: u32) -> u32
    requires { end ≤ length next.now }
    ensures { result ≡ run_end next.now end 16 place }
{
    let mut q = place;
    for i in 0..16u32 {
        if end <= q {
            return q;
        }
        q = next[q as usize] as u32;
    }
    q
}
