//! Answers and listings as bytes, put into a buffer from a place on. Each function returns the next place (docs/RULES.md, "Records").

ghost use Rattle.std.specs.Prelude.{◌≡◌, [], ◌∷◌, ◌+◌, ◌≤◌, ◌<◌, length};
ghost use Rattle.terms.specs.Proposals.{transactions_of};
ghost use Rattle.listing.specs.Lines.{decimal, number_field, ok_line, count_line, refused_line, letter_of, triple_fields, triples_fields, listing_line};
ghost use Rattle.base.specs.Puts.{Puts};

use terms::{Body, Member, Round, Transaction, letters};

// A byte.
fn put_byte(buffer: &mut [u8], at: usize, byte: u8) -> usize
    requires { at < length buffer.old }
    ensures { Puts buffer.old buffer.new at result (byte ∷ []) 1 }
{
    buffer[at] = byte;
    at + 1
}

// All of `bytes`.
#[tactic(auto, using(crate::proofs::LineLaws::copied))]
fn put_bytes(buffer: &mut [u8], at: usize, bytes: &[u8]) -> usize
    requires { at + length bytes.now ≤ length buffer.old }
    ensures { Puts buffer.old buffer.new at result bytes.now (length bytes.now) }
{
    let end = at + bytes.len();
    buffer[at..end].copy_from_slice(bytes);
    end
}

// A number in decimal.
#[tactic(auto, using(crate::proofs::LineLaws::decimal_tenth))]
fn put_number(buffer: &mut [u8], at: usize, number: u32) -> usize
    requires { at + 10 ≤ length buffer.old }
    ensures { Puts buffer.old buffer.new at result (decimal number) 10 }
{
    if number < 10 {
        buffer[at] = b'0' + number as u8;
        return at + 1;
    }
    let next = put_number(buffer, at, number / 10);
    buffer[next] = b'0' + (number % 10) as u8;
    next + 1
}

// A comma and a number.
fn put_field(buffer: &mut [u8], at: usize, number: u32) -> usize
    requires { at + 11 ≤ length buffer.old }
    ensures { Puts buffer.old buffer.new at result (number_field number) 11 }
{
    let next = put_byte(buffer, at, b',');
    put_number(buffer, next, number)
}

/// Puts the line ok: 4 bytes with its CRLF.
pub fn put_ok(buffer: &mut [u8], at: usize) -> usize
    requires { at + 4 ≤ length buffer.old }
    ensures { Puts buffer.old buffer.new at result ok_line 4 }
{
    put_bytes(buffer, at, b"ok\r\n")
}

/// Puts the line ok with a count: at most 15 bytes with its CRLF, 10 of them digits.
pub fn put_count(buffer: &mut [u8], at: usize, value: u32) -> usize
    requires { at + 15 ≤ length buffer.old }
    ensures { Puts buffer.old buffer.new at result (count_line value) 15 }
{
    let word = put_bytes(buffer, at, b"ok");
    let count = put_field(buffer, word, value);
    put_bytes(buffer, count, b"\r\n")
}

/// Puts the line refused with its number: at most 20 bytes with its CRLF, 10 of them digits.
pub fn put_refused(buffer: &mut [u8], at: usize, refusal: u32) -> usize
    requires { at + 20 ≤ length buffer.old }
    ensures { Puts buffer.old buffer.new at result (refused_line refusal) 20 }
{
    let word = put_bytes(buffer, at, b"refused");
    let number = put_field(buffer, word, refusal);
    put_bytes(buffer, number, b"\r\n")
}

// The letter of a transaction's kind.
fn letter(transaction: Transaction) -> u8
    ensures { result ≡ letter_of transaction }
{
    match transaction {
        Transaction::Bond(..) => letters::BOND,
        Transaction::Unbond(_) => letters::UNBOND,
        Transaction::Entry(_) => letters::ENTRY,
    }
}

// A triple, each field of it after a comma.
fn put_triple(buffer: &mut [u8], at: usize, transaction: Transaction) -> usize
    requires { at + 24 ≤ length buffer.old }
    ensures { Puts buffer.old buffer.new at result (triple_fields transaction) 24 }
{
    let comma = put_byte(buffer, at, b',');
    let kind = put_byte(buffer, comma, letter(transaction));
    let number = put_field(buffer, kind, terms::number(transaction));
    put_field(buffer, number, terms::amount(transaction))
}

// The triples of a body.
#[tactic(auto, using(crate::proofs::LineLaws::triples_none))]
fn put_triples(buffer: &mut [u8], at: usize, body: Body) -> usize
    requires { (body.count ≤ 4) × (at + 96 ≤ length buffer.old) }
    ensures { Puts buffer.old buffer.new at result (triples_fields (transactions_of body)) 96 }
{
    let mut next = at;
    for k in 0..body.count {
        next = put_triple(buffer, next, body.slots[k as usize]);
    }
    next
}

/// Puts the line of a certificate in a listing: its block, the block's round, its own round, its author, and a triple for each of its transactions, at most four. That is at most 141 bytes with its CRLF.
// Seven parameters: the line's fields in their order, and where it is put.
pub(crate) fn put_listing(
    buffer: &mut [u8],
    at: usize,
    block: u32,
    block_round: Round,
    author: Member,
    round: Round,
    body: Body,
) -> usize
    requires { (body.count ≤ 4) × (at + 141 ≤ length buffer.old) }
    ensures { Puts buffer.old buffer.new at result (listing_line block block_round round
        author.0 (transactions_of body)) 141 }
{
    let block_end = put_number(buffer, at, block);
    let block_round_end = put_field(buffer, block_end, block_round.0);
    let round_end = put_field(buffer, block_round_end, round.0);
    let author_end = put_field(buffer, round_end, author.0);
    let triples_end = put_triples(buffer, author_end, body);
    put_bytes(buffer, triples_end, b"\r\n")
}
