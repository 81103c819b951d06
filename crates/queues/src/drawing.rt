// Guests' queues as calls change them: a transaction added, and a draw (docs/RULES.md, "Guests' queues").

ghost use Rattle.std.specs.Prelude.{◌≡◌, true, ◌++◌, ◌*◌, ◌<◌, ◌≤◌, take, drop};
ghost use Rattle.std.proofs.Math.Seq.{paste};
ghost use Rattle.terms.specs.Bodies.{body_of};
ghost use Rattle.store.specs.Table.{row_length, transaction_length, Row};
ghost use Rattle.queues.specs.Queues.{next_guest, transactions_in, drawn};
ghost use Rattle.queues.specs.Words.{Place, served_word, waiting_count, place_start, queues_of, queues_fit, added_table, served_table, drawn_table};

use crate::{GUESTS, SERVED, WAITING};
use store::lengths::{QUEUE, ROW, TRANSACTION};
use terms::{Body, Transaction};

/// Puts a transaction behind those of a guest, which are fewer than eight.
#[tactic(auto, unfolding(crate::specs::Words::added_table))]
pub fn add(table: &mut [u32], guest: u32, transaction: Transaction)
    requires { Place table.old guest (waiting_count table.old guest) }
    ensures { table.new ≡ added_table table.old guest transaction }
{
    let count = crate::waiting_count(table, guest);
    let at = crate::place_start(guest, count);
    table[at] = terms::kind(transaction);
    table[at + 1] = terms::number(transaction);
    table[at + 2] = terms::amount(transaction);
    table[WAITING + guest as usize] = count + 1;
}

// Moves the transactions behind a guest's oldest one place to the front.
fn move_up(table: &mut [u32], guest: u32)
    requires { Place table.old guest 0 }
    ensures { table.new
        ≡ paste table.old (place_start guest 0) (drop (place_start guest 1) table.old)
        (7 * transaction_length) }
{
    let at = crate::place_start(guest, 0);
    table.copy_within(at + TRANSACTION as usize..at + QUEUE, at);
}

// Takes the oldest transaction of a guest away, who is the guest served last then.
#[tactic(auto, unfolding(crate::specs::Words::served_table))]
fn serve(table: &mut [u32], guest: u32)
    requires { Place table.old guest 0 × (0 < waiting_count table.old guest) }
    ensures { table.new ≡ served_table table.old guest }
{
    let count = crate::waiting_count(table, guest);
    move_up(table, guest);
    table[WAITING + guest as usize] = count - 1;
    table[SERVED] = guest + 1;
}

// The guest to draw from, none where all queues are empty.
#[tactic(auto, using(crate::proofs::GuestLaws::none_before, crate::proofs::GuestLaws::none_more, crate::proofs::GuestLaws::next_found, crate::proofs::GuestLaws::next_none), unfolding(crate::specs::Words::served_word))]
fn next_guest(table: &[u32]) -> Option<u32>
    requires { Row table.now 0 × (served_word table.now ≤ 8) }
    ensures { result ≡ next_guest (queues_of table.now) }
{
    let from = table[SERVED];
    for i in 0..GUESTS {
        let guest = (from + i) % GUESTS;
        if crate::waiting_count(table, guest) != 0 {
            return Some(guest);
        }
    }
    None
}

/// Draws as many as the allowance lets, and as wait: a body of them with a previous set. They leave their queues, and the guest drawn from last is the one served last.
#[tactic(auto, using(crate::proofs::WordLaws::fits_served, crate::proofs::GuestLaws::guest_place, crate::proofs::GuestLaws::guest_waits, crate::proofs::DrawnRowLaws::drawing_none, crate::proofs::DrawnRowLaws::drawing_more))]
pub(crate) fn draw(table: &mut [u32], allowance: u32, previous: u16) -> Body
    requires { Row table.old 0 × (queues_fit table.old ≡ true) }
    ensures { (result ≡ body_of previous (transactions_in (drawn allowance (queues_of table.old))))
        × (table.new ≡ drawn_table (drawn allowance (queues_of table.old)) table.old) }
{
    let mut body = terms::bare_body(previous);
    for i in 0..allowance {
        let Some(guest) = next_guest(table) else {
            return body;
        };
        body = terms::pushed(body, crate::waiting_at(table, guest, 0));
        serve(table, guest);
    }
    body
}

/// The body that a draw makes, with nothing gone from its queue: the draw is made on `row`, which becomes a copy of row 0 first, and then is row 0 without what was drawn.
#[tactic(auto, using(crate::proofs::WordLaws::first_row, crate::proofs::WordLaws::first_queues, crate::proofs::WordLaws::first_fits, crate::proofs::DrawnRowLaws::row_drawn))]
pub fn drawn_body(table: &[u32], allowance: u32, previous: u16, row: &mut [u32; ROW]) -> Body
    requires { Row table.now 0 × (queues_fit table.now ≡ true) }
    ensures body { result
        ≡ body_of previous (transactions_in (drawn allowance (queues_of table.now))) }
    ensures row { row.new ++ drop row_length table.now
        ≡ drawn_table (drawn allowance (queues_of table.now)) table.now }
{
    row.copy_from_slice(&table[..ROW]);
    draw(row, allowance, previous)
}

/// Puts `row` in the place of row 0.
pub fn put_first_row(table: &mut [u32], row: &[u32; ROW])
    requires { Row table.old 0 }
    ensures { table.new ≡ row.now ++ drop row_length table.old }
{
    table[..ROW].copy_from_slice(row);
}
