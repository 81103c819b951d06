//! Is a stretch of the table well formed?
//!
//! It looks at what the store owns: each row's header and the certificates that are held, and at nothing else (`rows_fit`, specs/Scan). All four slots of a held record are tested by a table of limits (specs/Limits), so that no branch goes by what a transaction is. docs/RULES.md, "A member's state".
#![tactic(auto)]

ghost use Rattle.std.specs.Prelude.{◌≡◌, true, if◌then◌else◌, ◌<◌, ◌≤◌, nat_lt};
ghost use Rattle.base.specs.Folds.{all_to};
ghost use Rattle.store.specs.Table.{Within, Row};
ghost use Rattle.scan.specs.Scan.{transaction_fits, endorsers_fit, record_fits, place_fits, row_fits, rows_fit};
ghost use Rattle.scan.specs.Limits.{limit_table, limit_of, slot_fits, Scannable};

use terms::{Member, Round};

// The limits of a transaction's words: the greatest number, the least and the greatest amount, each for bonds, unbonds, entries, any other kind, and what is no transaction.
fn limits() -> [u32; 15]
    ensures { result ≡ limit_table }
{
    let any = 4294967295;
    [15, 15, any, any, any, 1, 0, 0, 1, 0, 1000, 0, 0, 0, any]
}

// Which of the five limits hold for a slot of this kind. A table and no branches: kinds come in any order.
#[tactic(auto, unfolding(crate::specs::Limits::limit_of))]
fn limit(there: bool, kind: u32) -> u32
    ensures which { result ≡ limit_of there kind }
    ensures few { result < 5 }
{
    if !there { 4 } else { kind.min(3) }
}

// Are the three words a transaction in range, if one is there?
#[tactic(auto, using(crate::proofs::LimitLaws::by_limits))]
fn slot_fits(limits: &[u32; 15], there: bool, kind: u32, number: u32, amount: u32) -> bool
    requires { limits.now ≡ limit_table }
    ensures { result ≡ slot_fits there kind number amount }
{
    let at = limit(there, kind) as usize;
    // written this way the limit is loaded and the word compared in memory: with <= the walk over a table takes a twentieth more
    !(limits[at] < number) & (limits[at + 5] <= amount) & (amount <= limits[at + 10])
}

// Is transaction `index` of a record of `count` in range, if it is there?
#[tactic(auto, unfolding(crate::specs::Scan::transaction_fits))]
fn transaction_fits(
    table: &[u32],
    limits: &[u32; 15],
    author: Member,
    round: Round,
    count: u32,
    index: u32,
) -> bool
    requires { Scannable table.now limits.now author.0 round index 3 }
    ensures { result ≡ (if nat_lt index count then transaction_fits table.now author.0 round index
        else true) }
{
    let kind = store::record::kind_at(table, author, round, index);
    let number = store::record::number_at(table, author, round, index);
    let amount = store::record::amount_at(table, author, round, index);
    slot_fits(limits, index < count, kind, number, amount)
}

// Are those of the four slots of a record of `count` transactions in range that are there? All four are looked at.
#[tactic(auto, unfolding(base::specs::Folds::all_to))]
fn slots_fit(table: &[u32], limits: &[u32; 15], author: Member, round: Round, count: u32) -> bool
    requires { Scannable table.now limits.now author.0 round count 4 }
    ensures { result
        ≡ all_to (λ k. if nat_lt k count then transaction_fits table.now author.0 round k
        else true) 4 }
{
    (0..4).all(|k| transaction_fits(table, limits, author, round, count, k))
}

// Are the first `count` transactions of a record in range?
#[tactic(auto, using(crate::proofs::LimitLaws::all_there), unfolding(base::specs::Folds::all_to))]
fn transactions_fit(
    table: &[u32],
    limits: &[u32; 15],
    author: Member,
    round: Round,
    count: u32,
) -> bool
    requires { Scannable table.now limits.now author.0 round count 4 }
    ensures { result ≡ all_to (transaction_fits table.now author.0 round) count }
{
    count == 0 || slots_fit(table, limits, author, round, count)
}

// Are the endorsers of a record a set of members, the author not among them?
#[tactic(auto, using(crate::proofs::LimitLaws::low_bits), unfolding(crate::specs::Scan::endorsers_fit, store::specs::Table::endorsers_at))]
fn endorsers_fit(table: &[u32], author: Member, round: Round) -> bool
    requires { Within table.now author.0 round }
    ensures { result ≡ endorsers_fit table.now author.0 round }
{
    let endorsers = store::record::word_at(table, author, round, 3);
    endorsers < 65536 && !base::contains(endorsers, author.0)
}

// Is the record of a held certificate well formed: transactions in range and within the allowance, a previous set that is empty exactly in round 1, a mark that names one of the blocks or none, and endorsers without the author?
#[tactic(auto, using(store::proofs::TableLaws::count_le), unfolding(crate::specs::Scan::record_fits))]
fn record_fits(
    table: &[u32],
    limits: &[u32; 15],
    allowance: u32,
    blocks: u32,
    author: Member,
    round: Round,
) -> bool
    requires { Within table.now author.0 round × (limits.now ≡ limit_table) }
    ensures { result ≡ record_fits table.now allowance blocks author.0 round }
{
    store::record::word_at(table, author, round, 1) <= allowance
        && transactions_fit(
            table,
            limits,
            author,
            round,
            store::record::count(table, author, round),
        )
        && store::record::word_at(table, author, round, 0) < 65536
        && !terms::is_bad_previous_set(round, store::record::previous(table, author, round))
        && store::record::mark(table, author, round) <= blocks
        && endorsers_fit(table, author, round)
}

// Is nothing held at the place, or is its record well formed?
#[tactic(auto, unfolding(crate::specs::Scan::place_fits))]
fn place_fits(
    table: &[u32],
    limits: &[u32; 15],
    allowance: u32,
    blocks: u32,
    author: Member,
    round: Round,
) -> bool
    requires { Within table.now author.0 round × (limits.now ≡ limit_table) }
    ensures { result ≡ place_fits table.now allowance blocks round author.0 }
{
    !store::held(table, author, round)
        || record_fits(table, limits, allowance, blocks, author, round)
}

// Are the sixteen places of a round well formed?
#[tactic(auto, unfolding(base::specs::Folds::all_to))]
fn places_fit(table: &[u32], limits: &[u32; 15], allowance: u32, blocks: u32, round: Round) -> bool
    requires { Row table.now round × (limits.now ≡ limit_table) }
    ensures { result ≡ all_to (place_fits table.now allowance blocks round) 16 }
{
    (0..16).all(|m| place_fits(table, limits, allowance, blocks, Member(m), round))
}

// Is a row well formed: its sets are sets of members, and each held certificate's record is well formed?
#[tactic(auto, unfolding(crate::specs::Scan::row_fits), using(crate::proofs::ScanLaws::free_row))]
fn row_fits(table: &[u32], limits: &[u32; 15], allowance: u32, blocks: u32, round: Round) -> bool
    requires { Row table.now round × (limits.now ≡ limit_table) }
    ensures { result ≡ row_fits table.now allowance blocks round }
{
    let held = store::held_set(table, round);
    held < 65536
        && store::endorsed_set(table, round) < 65536
        && (held == 0 || places_fit(table, limits, allowance, blocks, round))
}

/// Are the rows of the rounds 1 to `ceiling`, at most 1,024, well formed for an allowance and a number of blocks?
#[tactic(auto, unfolding(crate::specs::Scan::rows_fit, base::specs::Folds::all_to))]
pub fn rows_fit(table: &[u32], allowance: u32, blocks: u32, ceiling: Round) -> bool
    requires { Row table.now ceiling × (ceiling ≤ 1024) }
    ensures { result ≡ rows_fit table.now allowance blocks ceiling }
{
    let l = limits();
    (0..ceiling.0).all(|r| row_fits(table, &l, allowance, blocks, Round(r + 1)))
}
