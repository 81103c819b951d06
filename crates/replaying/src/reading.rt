//! A list of a run's calls, read from its words.
//!
//! What is read has exactly these words (specs/Lists), so words that no list has are refused.

ghost use Rattle.std.specs.Prelude.{◌≡◌, [], ◌∷◌, ◌++◌, ◌<◌, ◌*◌, length, get_or, All, IfOk, IfErr};
ghost use Rattle.batching.specs.Rows.{record_words};
ghost use Rattle.library.specs.Calls.{Typed};
ghost use Rattle.replaying.specs.Told.{told, told_host, told_guest};
ghost use Rattle.replaying.specs.Lists.{row_words, rows_words, host_words, guest_words, entry_words, entries_words, head_words, RecordWhole, HostWhole, GuestWhole, CallWhole, NoRow, NoHost, NoGuest, NoEntry, NoEntries, NoHead, Unread};
ghost use Rattle.replaying.specs.declared.failure.Failure.TheVariants.{Damaged};

use crate::calls::{Call, Entry, GuestCall, HostCall};
use crate::failure::{Failure, push};
use crate::heads::{Head, MARK};
use batching::rows::CertificateRecord;
use std::alloc::Global;

// A word, and the words behind it.
fn number(words: &[u32]) -> Result<(u32, &[u32]), Failure>
    ensures words { IfOk result (λ p. words.now ≡ p.0 ∷ p.1.now) }
    ensures none { IfErr result (λ f. (f ≡ Damaged) × (words.now ≡ [])) }
{
    match words.split_first() {
        Some((first, rest)) => Ok((*first, rest)),
        None => Err(Failure::Damaged),
    }
}

// So many words, and the words behind them.
fn stretch<const N: usize>(words: &[u32]) -> Result<([u32; N], &[u32]), Failure>
    ensures words { IfOk result (λ p. words.now ≡ p.0 ++ p.1.now) }
    ensures none { IfErr result (λ f. (f ≡ Damaged) × (length words.now < N)) }
{
    match words.split_first_chunk::<N>() {
        Some((first, rest)) => Ok((*first, rest)),
        None => Err(Failure::Damaged),
    }
}

// A certificate as a row has it.
#[tactic(auto, unfolding(batching::specs::Rows::record_words))]
fn record(words: &[u32]) -> Result<(CertificateRecord, &[u32]), Failure>
    ensures words { IfOk result (λ p. words.now ≡ record_words p.0 ++ p.1.now) }
    ensures whole { IfOk result (λ p. RecordWhole p.0) }
    ensures none { IfErr result (λ f. (f ≡ Damaged) × (length words.now < 17)) }
{
    let (author, rest) = number(words)?;
    let (round, rest) = number(rest)?;
    let (body, rest) = stretch::<14>(rest)?;
    let (endorsers, rest) = number(rest)?;
    let one = CertificateRecord {
        author,
        round,
        body,
        endorsers,
    };
    Ok((one, rest))
}

// The certificates of a row, so many.
#[tactic(auto, using(crate::proofs::ListLaws::rows_none, crate::proofs::ListLaws::rows_more, crate::proofs::UnreadLaws::rows_unread))]
fn records(
    alloc: Global,
    count: u32,
    words: &[u32],
) -> Result<(Vec<CertificateRecord>, &[u32]), Failure>
    ensures words { IfOk result (λ p.
        (length p.0.items ≡ count) × (words.now ≡ rows_words p.0.items ++ p.1.now)) }
    ensures whole { IfOk result (λ p. All RecordWhole p.0.items) }
    ensures none { IfErr result (Unread (length words.now < 17 * count)) }
{
    let mut row = Vec::new(alloc);
    let mut rest = words;
    while row.len() < count as usize {
        let (one, behind) = record(rest)?;
        push(&mut row, one)?;
        rest = behind;
    }
    Ok((row, rest))
}

// A row: how many certificates it has, and these.
#[tactic(auto, using(crate::proofs::UnreadLaws::no_row_empty, crate::proofs::UnreadLaws::row_unread))]
fn row(alloc: Global, words: &[u32]) -> Result<(Vec<CertificateRecord>, &[u32]), Failure>
    ensures words { IfOk result (λ p. words.now ≡ row_words p.0.items ++ p.1.now) }
    ensures whole { IfOk result (λ p. All RecordWhole p.0.items) }
    ensures none { IfErr result (Unread (NoRow words.now)) }
{
    let (count, rest) = number(words)?;
    records(alloc, count, rest)
}

// A call of the host's own, by its number and the words behind that.
#[tactic(auto, using(crate::proofs::UnreadLaws::no_host, crate::proofs::UnreadLaws::no_host_above, crate::proofs::UnreadLaws::host_row))]
fn host_call(alloc: Global, code: u32, words: &[u32]) -> Result<(HostCall, &[u32]), Failure>
    ensures words { IfOk result (λ p. code ∷ words.now ≡ host_words p.0 ++ p.1.now) }
    ensures typed { IfOk result (λ p. Typed (told_host p.0)) }
    ensures whole { IfOk result (λ p. HostWhole p.0) }
    ensures none { IfErr result (Unread (NoHost code words.now)) }
{
    match code {
        0 => {
            let (body, rest) = stretch::<14>(words)?;
            Ok((HostCall::Propose(body), rest))
        }
        1 => {
            let (previous, rest) = number(words)?;
            Ok((HostCall::Draw(previous), rest))
        }
        2 => {
            let (guest, rest) = number(words)?;
            let (transaction, rest) = stretch::<3>(rest)?;
            Ok((HostCall::Enqueue(guest, transaction), rest))
        }
        3 => {
            let (proposal, rest) = stretch::<16>(words)?;
            Ok((HostCall::Endorse(proposal), rest))
        }
        4 => {
            let (endorsers, rest) = number(words)?;
            Ok((HostCall::Certify(endorsers), rest))
        }
        5 => {
            let (certificate, rest) = stretch::<17>(words)?;
            Ok((HostCall::Accept(certificate), rest))
        }
        6 => {
            let (row, rest) = row(alloc, words)?;
            Ok((HostCall::Batch(row), rest))
        }
        7 => Ok((HostCall::Advance, words)),
        8 => Ok((HostCall::Commit, words)),
        9 => {
            let (guest, rest) = number(words)?;
            Ok((HostCall::PortReset(guest), rest))
        }
        _ => Err(Failure::Damaged),
    }
}

// What is written to a port: a byte.
fn byte(words: &[u32]) -> Result<(u8, &[u32]), Failure>
    ensures words { IfOk result (λ p. words.now ≡ p.0 ∷ p.1.now) }
    ensures none { IfErr result (λ f. (f ≡ Damaged) × (255 < get_or words.now 0 256)) }
{
    let (value, rest) = number(words)?;
    if 255 < value {
        return Err(Failure::Damaged);
    }
    Ok((value as u8, rest))
}

// A guest's call, by its number and the words behind the caller.
#[tactic(auto, using(crate::proofs::UnreadLaws::no_guest, crate::proofs::UnreadLaws::no_guest_below, crate::proofs::UnreadLaws::no_guest_above, crate::proofs::UnreadLaws::guest_row, crate::proofs::UnreadLaws::no_write))]
fn guest_call(
    alloc: Global,
    code: u32,
    caller: u32,
    words: &[u32],
) -> Result<(GuestCall, &[u32]), Failure>
    ensures words { IfOk result
        (λ p. code ∷ caller ∷ words.now ≡ guest_words caller p.0 ++ p.1.now) }
    ensures typed { IfOk result (λ p. Typed (told_guest caller p.0)) }
    ensures whole { IfOk result (λ p. GuestWhole p.0) }
    ensures none { IfErr result (Unread (NoGuest code caller words.now)) }
{
    match code {
        16 => {
            let (body, rest) = stretch::<14>(words)?;
            Ok((GuestCall::Propose(body), rest))
        }
        17 => {
            let (previous, rest) = number(words)?;
            Ok((GuestCall::Draw(previous), rest))
        }
        18 => {
            let (transaction, rest) = stretch::<3>(words)?;
            Ok((GuestCall::Enqueue(transaction), rest))
        }
        19 => {
            let (proposal, rest) = stretch::<16>(words)?;
            Ok((GuestCall::Endorse(proposal), rest))
        }
        20 => {
            let (endorsers, rest) = number(words)?;
            Ok((GuestCall::Certify(endorsers), rest))
        }
        21 => {
            let (certificate, rest) = stretch::<17>(words)?;
            Ok((GuestCall::Accept(certificate), rest))
        }
        22 => {
            let (row, rest) = row(alloc, words)?;
            Ok((GuestCall::Batch(row), rest))
        }
        23 => Ok((GuestCall::Advance, words)),
        24 => Ok((GuestCall::Commit, words)),
        25 => {
            let (offset, rest) = number(words)?;
            Ok((GuestCall::PortRead(offset), rest))
        }
        26 => {
            let (offset, rest) = number(words)?;
            let (value, rest) = byte(rest)?;
            Ok((GuestCall::PortWrite(offset, value), rest))
        }
        _ => Err(Failure::Damaged),
    }
}

// Whose call it is, one of so many members, and the call.
#[tactic(auto, using(crate::proofs::UnreadLaws::no_entry_empty, crate::proofs::UnreadLaws::no_entry_member, crate::proofs::UnreadLaws::no_entry_number, crate::proofs::UnreadLaws::no_entry_caller, crate::proofs::UnreadLaws::host_entry_unread, crate::proofs::UnreadLaws::guest_entry_unread))]
fn entry(alloc: Global, members: u32, words: &[u32]) -> Result<(Entry, &[u32]), Failure>
    ensures words { IfOk result (λ p. words.now ≡ entry_words p.0 ++ p.1.now) }
    ensures member { IfOk result (λ p. p.0.who < members) }
    ensures typed { IfOk result (λ p. Typed (told p.0.call)) }
    ensures whole { IfOk result (λ p. CallWhole p.0.call) }
    ensures none { IfErr result (Unread (NoEntry members words.now)) }
{
    let (who, rest) = number(words)?;
    if members <= who {
        return Err(Failure::Damaged);
    }
    let (code, rest) = number(rest)?;
    if code < 16 {
        let (call, rest) = host_call(alloc, code, rest)?;
        let one = Entry {
            who: who as usize,
            call: Call::Host(call),
        };
        return Ok((one, rest));
    }
    let (caller, rest) = number(rest)?;
    let (call, rest) = guest_call(alloc, code, caller, rest)?;
    let one = Entry {
        who: who as usize,
        call: Call::Guest(caller, call),
    };
    Ok((one, rest))
}

/// The calls of so many members, to the end of the words.
#[tactic(auto, using(crate::proofs::ListLaws::entries_none, crate::proofs::ListLaws::entries_more, crate::proofs::ListLaws::entry_shorter, crate::proofs::DecodedLaws::entries_unread))]
pub fn entries(alloc: Global, members: u32, words: &[u32]) -> Result<Vec<Entry>, Failure>
    ensures words { IfOk result (λ v. words.now ≡ entries_words v.items) }
    ensures members { IfOk result (λ v. All (λ e. e.who < members) v.items) }
    ensures typed { IfOk result (λ v. All (λ e. Typed (told e.call)) v.items) }
    ensures whole { IfOk result (λ v. All (λ e. CallWhole e.call) v.items) }
    ensures none { IfErr result (Unread (NoEntries members words.now)) }
{
    let mut all = Vec::new(alloc);
    let mut rest = words;
    while !rest.is_empty() {
        let (one, behind) = entry(alloc, members, rest)?;
        push(&mut all, one)?;
        rest = behind;
    }
    Ok(all)
}

/// The head of a list, and the words behind it.
#[tactic(auto, using(crate::proofs::UnreadLaws::no_head, crate::proofs::UnreadLaws::no_head_mark))]
pub fn head(words: &[u32]) -> Result<(Head, &[u32]), Failure>
    ensures words { IfOk result (λ p. words.now ≡ head_words p.0 ++ p.1.now) }
    ensures sheet { IfOk result (λ p. length p.0.sheet ≡ 40) }
    ensures none { IfErr result (λ f. (f ≡ Damaged) × NoHead words.now) }
{
    let (mark, rest) = number(words)?;
    if mark != MARK {
        return Err(Failure::Damaged);
    }
    let (members, rest) = number(rest)?;
    let (rights, rest) = number(rest)?;
    let (sheet, rest) = stretch::<40>(rest)?;
    let one = Head {
        members,
        rights,
        sheet,
    };
    Ok((one, rest))
}
