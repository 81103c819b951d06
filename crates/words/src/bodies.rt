// A body as fourteen words, and a transaction as three: read, and put.

pub mod lengths;
pub mod stretch;

ghost use Rattle.std.specs.Prelude.{◌≡◌, ◌+◌, ◌<◌, ◌≤◌, length};
ghost use Rattle.std.proofs.Math.Seq.{paste};
ghost use Rattle.words.specs.Lengths.{transaction_length, body_length};
ghost use Rattle.words.specs.Given.{Given};
ghost use Rattle.words.specs.Bodies.{is_triple, triple_reads, body_reads, lone_body_reads, lone_triple_reads, slot_in, slots_in, body_in, triple_in, used_of, triple_words, body_words};

use crate::bodies::lengths::{BODY, TRANSACTION};
use crate::places::{BODY_COUNT, BODY_TRANSACTIONS};
use terms::{Body, Member, Transaction};

// Are three words with this kind and amount a transaction?
#[tactic(auto, unfolding(crate::specs::Bodies::is_triple))]
fn is_triple(kind: u32, amount: u32) -> bool
    ensures { result ≡ is_triple kind amount }
{
    kind == 0 || (kind <= 2 && amount == 0)
}

// Can transaction `index` of the body from `at` on be read? What lies beyond the count is not looked at.
#[tactic(auto, unfolding(crate::specs::Bodies::triple_reads))]
fn triple_reads(words: &[u32], at: usize, index: u32) -> bool
    requires { (at + body_length ≤ length words.now) × (index < 4) }
    ensures { result ≡ triple_reads words.now at index }
{
    let start = at + BODY_TRANSACTIONS + index as usize * TRANSACTION;
    words[at + BODY_COUNT] <= index || is_triple(words[start], words[start + 2])
}

// Can the body from `at` on be read?
#[tactic(auto, unfolding(crate::specs::Bodies::body_reads, base::specs::Folds::all_to))]
fn body_reads(words: &[u32], at: usize) -> bool
    requires { at + body_length ≤ length words.now }
    ensures { result ≡ body_reads words.now at }
{
    words[at] < 65536 && (0..4u32).all(|k| triple_reads(words, at, k))
}

// Slot `index` of the body from `at` on.
#[tactic(auto, unfolding(crate::specs::Bodies::slot_in))]
fn slot_in(words: &[u32], at: usize, index: u32) -> Transaction
    requires { (at + body_length ≤ length words.now) × (index < 4) }
    ensures { result ≡ slot_in words.now at index }
{
    let start = at + BODY_TRANSACTIONS + index as usize * TRANSACTION;
    if index < words[at + BODY_COUNT] {
        terms::read_transaction(words[start], words[start + 1], words[start + 2])
    } else {
        Transaction::Bond(Member(0), 0)
    }
}

// The four slots of the body from `at` on.
#[tactic(auto, unfolding(base::specs::Folds::tab))]
fn slots_in(words: &[u32], at: usize) -> [Transaction; 4]
    requires { at + body_length ≤ length words.now }
    ensures { result ≡ slots_in words.now at }
{
    [
        slot_in(words, at, 0),
        slot_in(words, at, 1),
        slot_in(words, at, 2),
        slot_in(words, at, 3),
    ]
}

/// The body from `at` on, whose fourteen words must be there; `None` where the previous set is beyond sixteen bits, or where three words within the count are no transaction.
#[tactic(auto, unfolding(crate::specs::Bodies::body_reads, crate::specs::Bodies::body_in))]
pub(crate) fn body_at(words: &[u32], at: usize) -> Option<Body>
    requires { at + body_length ≤ length words.now }
    ensures { Given (body_reads words.now at) (body_in words.now at) result }
{
    if !body_reads(words, at) {
        return None;
    }
    Some(Body {
        previous: words[at] as u16,
        count: words[at + BODY_COUNT],
        slots: slots_in(words, at),
    })
}

/// A body by itself: words beyond the fourteen are not looked at, fewer are none.
#[tactic(auto, unfolding(crate::specs::Bodies::lone_body_reads))]
pub fn body(words: &[u32]) -> Option<Body>
    ensures { Given (lone_body_reads words.now) (body_in words.now 0) result }
{
    if words.len() < BODY {
        return None;
    }
    body_at(words, 0)
}

/// A transaction by itself, three words: kind 0 bond, 1 unbond, 2 entry; number; amount. `None` where there are fewer, the kind is another, or one that is no bond has an amount.
#[tactic(auto, unfolding(crate::specs::Bodies::lone_triple_reads, crate::specs::Bodies::triple_in))]
pub fn transaction(words: &[u32]) -> Option<Transaction>
    ensures { Given (lone_triple_reads words.now) (triple_in words.now) result }
{
    if words.len() < TRANSACTION || !is_triple(words[0], words[2]) {
        return None;
    }
    Some(terms::read_transaction(words[0], words[1], words[2]))
}

// Transaction `index` of a body, none beyond its count.
#[tactic(auto, unfolding(crate::specs::Bodies::used_of, terms::specs::Proposals::slot_of))]
fn used_at(body: Body, index: u32) -> Transaction
    requires { index < 4 }
    ensures { result ≡ used_of body index }
{
    if index < body.count {
        body.slots[index as usize]
    } else {
        Transaction::Bond(Member(0), 0)
    }
}

/// Puts a body from `at` on, fourteen words: what lies beyond its count is put as zeros.
#[tactic(auto, unfolding(crate::specs::Bodies::body_words, crate::specs::Bodies::used_words))]
pub fn put_body(out: &mut [u32], at: usize, body: Body)
    requires { at + body_length ≤ length out.old }
    ensures { out.new ≡ paste out.old at (body_words body) body_length }
{
    let used = [
        used_at(body, 0),
        used_at(body, 1),
        used_at(body, 2),
        used_at(body, 3),
    ];
    let words = [
        body.previous as u32,
        body.count,
        terms::kind(used[0]),
        terms::number(used[0]),
        terms::amount(used[0]),
        terms::kind(used[1]),
        terms::number(used[1]),
        terms::amount(used[1]),
        terms::kind(used[2]),
        terms::number(used[2]),
        terms::amount(used[2]),
        terms::kind(used[3]),
        terms::number(used[3]),
        terms::amount(used[3]),
    ];
    stretch::put(out, at, &words);
}
