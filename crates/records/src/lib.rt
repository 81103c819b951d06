//! Records as the runner reads them: fields, calls.
//!
//! A record's fields (specs/Fields), the numbers and settings in them (specs/Numbers, specs/Settings), triples until the record ends (specs/Triples), and what a record asks for, if it can be read (specs/Records). A field is the stretch of the record that it stands in; nothing is copied. docs/RULES.md, "Records".
#![tactic(auto)]

pub mod fields;
pub mod number;
pub mod setting;
pub mod triples;

ghost use Rattle.std.specs.Prelude.{◌≡◌, ◌<◌, ◌^◌, length};
ghost use Rattle.std.specs.Option.{option_map};
ghost use Rattle.std.specs.Str.{bytes_eq};
ghost use Rattle.terms.specs.Bodies.{body_of};
ghost use Rattle.records.specs.Triples.{from_kind};
ghost use Rattle.records.specs.Records.{record_in, named, ended_as, propose_of, endorse_of, certify_of, accept_of, open_of};

use fields::Fields;
use framing::LONGEST;
use terms::sheet::{Rights, Sheet};
use terms::{Body, Certificate, Member, Proposal, Round};

/// What a record asks for.
#[derive(Debug, Clone, Copy)]
pub enum Record {
    /// Open as this member, with this sheet. It fixes no rights.
    Open(Member, Sheet),
    /// Propose this body.
    Propose(Body),
    /// Endorse this proposal.
    Endorse(Proposal),
    /// Certify the proposal of the present round, with this set of endorsers.
    Certify(u16),
    /// Accept this certificate.
    Accept(Certificate),
    /// Go on to the next round.
    Advance,
    /// Commit.
    Commit,
    /// List the chain.
    Chain,
}

/// What the bytes of a record, without its CRLF, ask for. None is an unreadable record, one that is too long or holds a quote mark, a CR or an LF included. No field that is read holds any of the three, so they are not looked for.
#[tactic(auto, using(crate::proofs::Marks::damaged_or_not))]
pub fn record_in(bytes: &[u8]) -> Option<Record>
    ensures { result ≡ record_in bytes.now }
{
    if bytes.len() > LONGEST {
        return None;
    }
    let mut fields = Fields::new(bytes);
    let word = fields.next()?;
    named(word, &mut fields)
}

// Is the field this word?
fn is_word(field: &[u8], word: &[u8]) -> bool
    ensures { result ≡ bytes_eq field.now word.now }
{
    field == word
}

// The fields after the first, by the word that this one is.
#[tactic(auto, unfolding(crate::specs::Records::named))]
fn named(word: &[u8], fields: &mut Fields) -> Option<Record>
    requires { length fields.old < 2 ^ 32 }
    ensures { result ≡ named word.now fields.old }
{
    if is_word(word, b"open") {
        open(fields)
    } else if is_word(word, b"propose") {
        propose(fields)
    } else if is_word(word, b"endorse") {
        endorse(fields)
    } else if is_word(word, b"certify") {
        certify(fields)
    } else if is_word(word, b"accept") {
        accept(fields)
    } else if is_word(word, b"advance") {
        ended_as(fields, Record::Advance)
    } else if is_word(word, b"commit") {
        ended_as(fields, Record::Commit)
    } else if is_word(word, b"chain") {
        ended_as(fields, Record::Chain)
    } else {
        None
    }
}

// The fields of an open: own, lookback, ceiling, allowance, sixteen weights, and perhaps margin.
#[inline(never)]
#[tactic(auto, unfolding(crate::specs::Records::open_of))]
fn open(fields: &mut Fields) -> Option<Record>
    ensures { result ≡ open_of fields.old }
{
    let own = Member(fields.number()?);
    let lookback = fields.setting()?;
    let ceiling = fields.setting()?;
    let allowance = fields.setting()?;
    let weights = fields.weights()?;
    let margin = fields.last_setting()?;
    let sheet = Sheet {
        lookback,
        ceiling,
        allowance,
        weights,
        margin,
        rights: Rights(0),
    };
    Some(Record::Open(own, sheet))
}

// The fields of a propose: previous, triples.
#[tactic(auto, unfolding(crate::specs::Records::propose_of))]
fn propose(fields: &mut Fields) -> Option<Record>
    requires { length fields.old < 2 ^ 32 }
    ensures { result ≡ propose_of fields.old }
{
    let previous = fields.set()?;
    let body = body(fields, previous)?;
    Some(Record::Propose(body))
}

// The fields of an endorse: author, round, previous, triples.
#[tactic(auto, unfolding(crate::specs::Records::endorse_of))]
fn endorse(fields: &mut Fields) -> Option<Record>
    requires { length fields.old < 2 ^ 32 }
    ensures { result ≡ endorse_of fields.old }
{
    let author = Member(fields.number()?);
    let round = Round(fields.number()?);
    let previous = fields.set()?;
    let body = body(fields, previous)?;
    Some(Record::Endorse(Proposal {
        author,
        round,
        body,
    }))
}

// The field of a certify: endorsers.
#[tactic(auto, unfolding(crate::specs::Records::certify_of))]
fn certify(fields: &mut Fields) -> Option<Record>
    ensures { result ≡ certify_of fields.old }
{
    let endorsers = fields.set()?;
    ended_as(fields, Record::Certify(endorsers))
}

// The fields of an accept: author, round, previous, endorsers, triples.
#[tactic(auto, unfolding(crate::specs::Records::accept_of))]
fn accept(fields: &mut Fields) -> Option<Record>
    requires { length fields.old < 2 ^ 32 }
    ensures { result ≡ accept_of fields.old }
{
    let author = Member(fields.number()?);
    let round = Round(fields.number()?);
    let previous = fields.set()?;
    let endorsers = fields.set()?;
    let body = body(fields, previous)?;
    let proposal = Proposal {
        author,
        round,
        body,
    };
    Some(Record::Accept(Certificate {
        proposal,
        endorsers,
    }))
}

// The body of the triples that are left, with a previous set.
#[tactic(auto, using(crate::proofs::Reading::map_push_all))]
fn body(fields: &mut Fields, previous: u16) -> Option<Body>
    requires { length fields.old < 2 ^ 32 }
    ensures { result ≡ option_map (body_of previous) (from_kind fields.old) }
{
    triples::from_kind(fields, terms::bare_body(previous))
}

// The record, if no field is left.
fn ended_as(fields: &mut Fields, record: Record) -> Option<Record>
    ensures { result ≡ ended_as fields.old «record» }
{
    match fields.next() {
        None => Some(record),
        Some(_) => None,
    }
}
