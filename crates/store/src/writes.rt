// What is written into the table: certificates put, endorsed marks set, marks and rounds of blocks (docs/RULES.md, "A member's state").

ghost use Rattle.std.specs.Prelude.{◌≡◌, ◌+◌, ◌*◌, ◌<◌, ◌≤◌, get_or, length};
ghost use Rattle.std.proofs.Math.Seq.{paste};
ghost use Rattle.terms.specs.Transactions.{no_transaction};
ghost use Rattle.terms.specs.Proposals.{content_of, transactions_of};
ghost use Rattle.store.specs.Table.{record_length, Within, Row};
ghost use Rattle.store.specs.Writes.{put_transaction, record_of, put_certificate, set_endorsed, set_held, set_mark, set_block};

use crate::lengths::{RECORD, TRANSACTION};
use crate::places::{
    RECORD_BLOCK, RECORD_COUNT, RECORD_ENDORSERS, RECORD_PREVIOUS, RECORD_TRANSACTIONS, ROW_BLOCK,
    ROW_ENDORSED, record_start, row_start,
};
use terms::{Body, Member, Proposal, Round, Transaction};

// Slot `index` of a body, nothing beyond its transactions.
#[tactic(auto, using(crate::proofs::RecordLaws::nth_slot), unfolding(terms::specs::Proposals::slot_of))]
fn slot(body: Body, index: u32) -> Transaction
    requires { (index < 4) × (body.count ≤ 4) }
    ensures { result ≡ get_or (transactions_of body) index no_transaction }
{
    if index < body.count {
        body.slots[index as usize]
    } else {
        Transaction::Bond(Member(0), 0)
    }
}

// A transaction as the three words of slot `index`.
#[tactic(auto, unfolding(crate::specs::Writes::put_transaction))]
fn put_transaction(mut words: [u32; RECORD], index: u32, transaction: Transaction) -> [u32; RECORD]
    requires { index < 4 }
    ensures { result ≡ put_transaction words index transaction }
{
    let at = (RECORD_TRANSACTIONS + index * TRANSACTION) as usize;
    words[at] = terms::kind(transaction);
    words[at + 1] = terms::number(transaction);
    words[at + 2] = terms::amount(transaction);
    words
}

// The record of a certificate, in no block.
#[tactic(auto, using(crate::proofs::RecordLaws::counted), unfolding(crate::specs::Writes::record_of, crate::specs::Table::nth_of))]
fn record_of(proposal: Proposal, endorsers: u16) -> [u32; RECORD]
    requires { proposal.body.count ≤ 4 }
    ensures { result ≡ record_of (content_of proposal) endorsers }
{
    let body = proposal.body;
    let mut words = [0u32; RECORD];
    words[RECORD_PREVIOUS as usize] = body.previous as u32;
    words[RECORD_COUNT as usize] = body.count;
    words[RECORD_ENDORSERS as usize] = endorsers as u32;
    let words = put_transaction(words, 0, slot(body, 0));
    let words = put_transaction(words, 1, slot(body, 1));
    let words = put_transaction(words, 2, slot(body, 2));
    put_transaction(words, 3, slot(body, 3))
}

// Stores a record from `at` on.
fn put_words(table: &mut [u32], at: usize, words: [u32; RECORD])
    requires { at + record_length ≤ length table.old }
    ensures { table.new ≡ paste table.old at words record_length }
{
    table[at..at + RECORD].copy_from_slice(&words);
}

/// Puts a certificate of at most four transactions at its place with its endorsers, in no block. It is held from then on.
#[tactic(auto, unfolding(crate::specs::Writes::put_certificate, crate::specs::Writes::put_record, crate::specs::Table::held_set))]
pub fn put_certificate(table: &mut [u32], proposal: Proposal, endorsers: u16)
    requires { Within table.old proposal.author.0 proposal.round × (proposal.body.count ≤ 4) }
    ensures { table.new ≡ put_certificate table.old (content_of proposal) endorsers }
{
    let author = proposal.author.0;
    let at = row_start(proposal.round);
    let place = record_start(proposal.author, proposal.round);
    let words = record_of(proposal, endorsers);
    let held = base::insert(table[at], author);
    put_words(table, place, words);
    table[at] = held;
}

/// Marks a place endorsed.
#[tactic(auto, unfolding(crate::specs::Writes::set_endorsed, crate::specs::Table::endorsed_set))]
pub fn set_endorsed(table: &mut [u32], author: Member, round: Round)
    requires { Within table.old author.0 round }
    ensures { table.new ≡ set_endorsed table.old author.0 round }
{
    let at = row_start(round) + ROW_ENDORSED;
    table[at] = base::insert(table[at], author.0);
}

/// Writes the authors whose certificates of `round` are held, a bit each; their records stay as they are.
#[tactic(auto, unfolding(crate::specs::Writes::set_held))]
pub fn set_held(table: &mut [u32], round: Round, authors: u32)
    requires { Row table.old round }
    ensures { table.new ≡ set_held table.old round authors }
{
    table[row_start(round)] = authors;
}

/// Puts the certificate of a place into `block`, 0 for none.
#[tactic(auto, unfolding(crate::specs::Writes::set_mark))]
pub fn set_mark(table: &mut [u32], author: Member, round: Round, block: u32)
    requires { Within table.old author.0 round }
    ensures { table.new ≡ set_mark table.old author.0 round block }
{
    table[record_start(author, round) + RECORD_BLOCK as usize] = block;
}

/// Writes that `block` has this round.
#[tactic(auto, unfolding(crate::specs::Writes::set_block))]
pub fn set_block(table: &mut [u32], block: u32, round: Round)
    requires { Row table.old block }
    ensures { table.new ≡ set_block table.old block round }
{
    table[row_start(Round(block)) + ROW_BLOCK] = round.0;
}
