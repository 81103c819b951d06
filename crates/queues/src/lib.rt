//! Guests' queues, in row 0 of the table.
//!
//! Row 0: the guest served last plus 1, 0 for none; how many wait of each of eight guests; seven words kept for later; then for each guest eight words of its serial port, which no function here touches, and eight places of three words, oldest first.
//! What waits, what is drawn and what is left (specs/Queues) is told of these words (specs/Words): a draw takes the oldest of each guest that waits, going round from the one behind the guest served last. docs/RULES.md, "Guests' queues".
#![tactic(auto)]

pub mod drawing;

ghost use Rattle.std.specs.Prelude.{◌≡◌, ◌<◌, ◌≤◌};
ghost use Rattle.base.specs.Folds.{all_to};
ghost use Rattle.store.specs.Table.{Row};
ghost use Rattle.scan.specs.Scan.{triple_fits};
ghost use Rattle.queues.specs.Words.{waiting_count, place_start, waiting_at, waiting_fits, queue_fits, queues_fit, Place};

use store::lengths::{GUEST, TRANSACTION};
use store::places::FIRST_QUEUE;
use terms::{Member, Transaction};

/// How many guests there are: 0 to 7.
pub(crate) const GUESTS: u32 = 8;
/// How many transactions of a guest may wait.
pub const PLACES: u32 = 8;

/// Of row 0: the guest served last plus 1, 0 for none.
pub const SERVED: usize = 0;
/// Of row 0, plus the guest: how many of its transactions wait.
pub const WAITING: usize = 1;

/// How many transactions of a guest are waiting: its word, 0 to 8 where the row is well formed.
#[tactic(auto, unfolding(crate::specs::Words::waiting_count))]
pub fn waiting_count(table: &[u32], guest: u32) -> u32
    requires { Place table.now guest 0 }
    ensures { result ≡ waiting_count table.now guest }
{
    table[WAITING + guest as usize]
}

/// Where `place`, 0 to 7, of a guest's queue starts in row 0, in words.
pub fn place_start(guest: u32, place: u32) -> usize
    requires { (guest < 8) × (place < 8) }
    ensures { result ≡ place_start guest place }
{
    FIRST_QUEUE + guest as usize * GUEST + (place * TRANSACTION) as usize
}

/// The transaction at `place`, 0 to 7, of a guest's queue, the oldest at 0, whether it counts or not.
#[tactic(auto, unfolding(crate::specs::Words::waiting_at))]
pub(crate) fn waiting_at(table: &[u32], guest: u32, place: u32) -> Transaction
    requires { Place table.now guest place }
    ensures { result ≡ waiting_at table.now guest place }
{
    let at = place_start(guest, place);
    terms::read_transaction(table[at], table[at + 1], table[at + 2])
}

// Are the three words a transaction in range?
#[tactic(auto, unfolding(scan::specs::Scan::triple_fits))]
fn triple_fits(kind: u32, number: u32, amount: u32) -> bool
    ensures { result ≡ triple_fits kind number amount }
{
    match kind {
        0 => terms::bond_in_range(Member(number), amount),
        1 => amount == 0 && number < 16,
        _ => amount == 0 && kind == 2,
    }
}

// Is the transaction at `place` of a guest's queue in range?
#[tactic(auto, unfolding(crate::specs::Words::waiting_fits))]
fn waiting_fits(table: &[u32], guest: u32, place: u32) -> bool
    requires { Place table.now guest place }
    ensures { result ≡ waiting_fits table.now guest place }
{
    let at = place_start(guest, place);
    triple_fits(table[at], table[at + 1], table[at + 2])
}

// Are the transactions at the first `count` places of a guest's queue in range?
#[tactic(auto, unfolding(base::specs::Folds::all_to))]
fn places_fit(table: &[u32], guest: u32, count: u32) -> bool
    requires { Place table.now guest 0 × (count ≤ 8) }
    ensures { result ≡ all_to (waiting_fits table.now guest) count }
{
    (0..count).all(|k| waiting_fits(table, guest, k))
}

// Are at most eight of a guest's transactions waiting, all in range?
#[tactic(auto, unfolding(crate::specs::Words::queue_fits))]
fn queue_fits(table: &[u32], guest: u32) -> bool
    requires { Place table.now guest 0 }
    ensures { result ≡ queue_fits table.now guest }
{
    let count = waiting_count(table, guest);
    count <= PLACES && places_fit(table, guest, count)
}

/// Are at most eight transactions of each guest waiting, all in range, and is the guest served last 0 to 7 or none?
#[tactic(auto, unfolding(crate::specs::Words::queues_fit, crate::specs::Words::served_word, base::specs::Folds::all_to))]
pub fn queues_fit(table: &[u32]) -> bool
    requires { Row table.now 0 }
    ensures { result ≡ queues_fit table.now }
{
    table[SERVED] <= GUESTS && (0..GUESTS).all(|g| queue_fits(table, g))
}
