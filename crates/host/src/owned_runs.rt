//! Several members' hosts that own their words, in one program: a list of owner's calls answers and leaves what the list of public calls does, so their chains never fork over it.
//!
//! The calls are made by the functions that hosts link. The claim is the contract of `run`; docs/RULES.md, "What is claimed of runs".

ghost use Rattle.std.specs.Prelude.{◌≡◌, true, ◌<◌, ℕ, [], length, replicate, All};
ghost use Rattle.nonforking.specs.Statement.{Run};
ghost use Rattle.library.specs.Calls.{batch_by_guest};
ghost use Rattle.library.specs.Lists as library;
ghost use Rattle.library.specs.Lists.{after_call};
ghost use Rattle.library.specs.Hosts.{Hosts, AllTyped, members, calls_in, words_after};
ghost use Rattle.hosting.specs.Calls.{plain};
ghost use Rattle.host.specs.Told.{told, told_host, told_guest, comes_of, answer_of, answer_of_read, answer_of_host, answer_of_guest};
ghost use Rattle.host.specs.Runs.{words_of, Stand, after_run, newest, NeverFork, SameCommittees};
ghost use Rattle.host.specs.OwnedRuns.{host_opens_none, opens_none, OwnedWords, AllOwned};

use crate::runs::{Entry, GuestForm, HostCall, LibraryCall, View, Words};
use crate::{
    owned_batches, owned_calls, owned_guest_calls, owned_guest_views, owned_ports, owned_previews,
    owned_queue_calls, owned_views, runs,
};
use batching::rows::CertificateRecord;

/// The committees that a member's host keeps beside its words.
#[derive(Drop)]
pub struct Kept {
    pub words: Vec<u64>,
}

// A read of the host's own.
fn read(words: &mut Words, kept: &[u64], view: View) -> u64
    requires { OwnedWords words.old kept.now }
    ensures words { words_of words.new
        ≡ after_call (words_of words.old) (told_host (HostCall.Read view)) }
    ensures answer { result
        ≡ answer_of_read view (comes_of (words_of words.old) (told_host (HostCall.Read view))) }
    ensures owned { OwnedWords words.new kept.now }
{
    match view {
        View::Committee(round) => {
            owned_views::forgelilac_owned_committee(
                &words.state,
                &words.table,
                kept,
                round,
                &mut [0; 16],
            ) as u64
        }
        View::Share(member, round) => {
            owned_views::forgelilac_owned_share(&words.state, &words.table, kept, member, round)
        }
        View::Effect(member, round, amount) => {
            owned_views::forgelilac_owned_bond_effect(
                &words.state,
                &words.table,
                kept,
                member,
                round,
                amount,
                &mut [0; 33],
            ) as u64
        }
        View::Certificate(author, round) => {
            owned_views::forgelilac_owned_certificate(
                &words.state,
                &words.table,
                kept,
                author,
                round,
                &mut [0; 18],
            ) as u64
        }
        View::Block(number) => owned_views::forgelilac_owned_block(
            &words.state,
            &words.table,
            kept,
            number,
        ),
        View::Preview => owned_previews::forgelilac_owned_preview(
            &words.state,
            &words.table,
            kept,
            &mut [0; 192],
        ),
        View::Critical => owned_previews::forgelilac_owned_critical(
            &words.state,
            &mut words.table,
            kept,
            &mut [0; 64],
        ),
        View::BlockRows(known, number) => {
            owned_previews::forgelilac_owned_block_rows(
                &words.state,
                &words.table,
                kept,
                known,
                number,
                &mut [0; 576],
            )
        }
    }
}

// A call of the host's own.
fn make_host(words: &mut Words, kept: &mut [u64], call: HostCall) -> u64
    requires call { host_opens_none call ≡ true }
    requires owned { OwnedWords words.old kept.old }
    ensures words { words_of words.new ≡ after_call (words_of words.old) (told_host call.entry) }
    ensures answer { result
        ≡ answer_of_host call.entry (comes_of (words_of words.old) (told_host call.entry)) }
    ensures owned { OwnedWords words.new kept.new }
{
    match call {
        HostCall::Propose(body) => {
            owned_calls::forgelilac_owned_propose(&mut words.state, &words.table, kept, body) as u64
        }
        HostCall::Endorse(proposal) => {
            owned_calls::forgelilac_owned_endorse(
                &words.state,
                &mut words.table,
                kept,
                proposal,
            ) as u64
        }
        HostCall::Certify(endorsers) => {
            owned_calls::forgelilac_owned_certify(
                &words.state,
                &mut words.table,
                kept,
                endorsers,
            ) as u64
        }
        HostCall::Accept(certificate) => {
            owned_calls::forgelilac_owned_accept(
                &words.state,
                &mut words.table,
                kept,
                certificate,
            ) as u64
        }
        HostCall::Advance => {
            owned_calls::forgelilac_owned_advance(&mut words.state, &words.table, kept) as u64
        }
        HostCall::Commit => {
            owned_calls::forgelilac_owned_commit(&mut words.state, &mut words.table, kept)
        }
        HostCall::Enqueue(guest, transaction) => {
            owned_queue_calls::forgelilac_owned_enqueue(
                &words.state,
                &mut words.table,
                kept,
                guest,
                transaction,
            ) as u64
        }
        HostCall::Draw(previous) => {
            owned_queue_calls::forgelilac_owned_draw(
                &mut words.state,
                &mut words.table,
                kept,
                previous,
            ) as u64
        }
        HostCall::PortReset(guest) => {
            owned_queue_calls::forgelilac_owned_port_reset(
                &words.state,
                &mut words.table,
                kept,
                guest,
            ) as u64
        }
        HostCall::Read(view) => read(words, kept, view),
        HostCall::Open(_, _, _) => runs::make(words, LibraryCall::Host(call)),
        HostCall::Batch(row) => {
            owned_batches::forgelilac_owned_batch(
                &words.state,
                &mut words.table,
                kept,
                row,
                &mut [0; 64],
            ) as u64
        }
    }
}

// A read that a guest makes.
fn guest_read(words: &mut Words, kept: &[u64], caller: u32, view: View) -> u64
    requires { OwnedWords words.old kept.now }
    ensures words { words_of words.new
        ≡ after_call (words_of words.old) (told_guest caller (GuestForm.Read view)) }
    ensures answer { result
        ≡ answer_of_read view
        (comes_of (words_of words.old) (told_guest caller (GuestForm.Read view))) }
    ensures owned { OwnedWords words.new kept.now }
{
    match view {
        View::Committee(round) => {
            owned_guest_views::forgelilac_owned_guest_committee(
                caller,
                &words.state,
                &words.table,
                kept,
                round,
                &mut [0; 16],
            ) as u64
        }
        View::Share(member, round) => {
            owned_guest_views::forgelilac_owned_guest_share(
                caller,
                &words.state,
                &words.table,
                kept,
                member,
                round,
            )
        }
        View::Effect(member, round, amount) => {
            owned_guest_views::forgelilac_owned_guest_bond_effect(
                caller,
                &words.state,
                &words.table,
                kept,
                member,
                round,
                amount,
                &mut [0; 33],
            ) as u64
        }
        View::Certificate(author, round) => {
            owned_guest_views::forgelilac_owned_guest_certificate(
                caller,
                &words.state,
                &words.table,
                kept,
                author,
                round,
                &mut [0; 18],
            ) as u64
        }
        View::Block(number) => {
            owned_guest_views::forgelilac_owned_guest_block(
                caller,
                &words.state,
                &words.table,
                kept,
                number,
            )
        }
        View::Preview => {
            owned_guest_views::forgelilac_owned_guest_preview(
                caller,
                &words.state,
                &words.table,
                kept,
                &mut [0; 192],
            )
        }
        View::Critical => {
            owned_guest_views::forgelilac_owned_guest_critical(
                caller,
                &words.state,
                &mut words.table,
                kept,
                &mut [0; 64],
            )
        }
        View::BlockRows(known, number) => {
            owned_guest_views::forgelilac_owned_guest_block_rows(
                caller,
                &words.state,
                &words.table,
                kept,
                known,
                number,
                &mut [0; 576],
            )
        }
    }
}

// A row of certificates that a guest hands in.
fn guest_batch(words: &mut Words, kept: &[u64], caller: u32, row: &[CertificateRecord]) -> u64
    requires { OwnedWords words.old kept.now }
    ensures words { words_of words.new
        ≡ after_call (words_of words.old) (batch_by_guest caller row.now (replicate 64 0)) }
    ensures answer { result
        ≡ plain (comes_of (words_of words.old) (batch_by_guest caller row.now (replicate 64 0))) }
    ensures owned { OwnedWords words.new kept.now }
{
    owned_batches::forgelilac_owned_guest_batch(
        caller,
        &words.state,
        &mut words.table,
        kept,
        row,
        &mut [0; 64],
    ) as u64
}

// A guest's call.
fn make_guest(words: &mut Words, kept: &mut [u64], caller: u32, form: GuestForm) -> u64
    requires owned { OwnedWords words.old kept.old }
    ensures words { words_of words.new
        ≡ after_call (words_of words.old) (told_guest caller form.entry) }
    ensures answer { result
        ≡ answer_of_guest form.entry
        (comes_of (words_of words.old) (told_guest caller form.entry)) }
    ensures owned { OwnedWords words.new kept.new }
{
    match form {
        GuestForm::Propose(body) => {
            owned_guest_calls::forgelilac_owned_guest_propose(
                caller,
                &mut words.state,
                &words.table,
                kept,
                body,
            ) as u64
        }
        GuestForm::Draw(previous) => {
            owned_guest_calls::forgelilac_owned_guest_draw(
                caller,
                &mut words.state,
                &mut words.table,
                kept,
                previous,
            ) as u64
        }
        GuestForm::Enqueue(transaction) => {
            owned_guest_calls::forgelilac_owned_guest_enqueue(
                caller,
                &words.state,
                &mut words.table,
                kept,
                transaction,
            ) as u64
        }
        GuestForm::Endorse(proposal) => {
            owned_guest_calls::forgelilac_owned_guest_endorse(
                caller,
                &words.state,
                &mut words.table,
                kept,
                proposal,
            ) as u64
        }
        GuestForm::Certify(endorsers) => {
            owned_guest_calls::forgelilac_owned_guest_certify(
                caller,
                &words.state,
                &mut words.table,
                kept,
                endorsers,
            ) as u64
        }
        GuestForm::Accept(certificate) => {
            owned_guest_calls::forgelilac_owned_guest_accept(
                caller,
                &words.state,
                &mut words.table,
                kept,
                certificate,
            ) as u64
        }
        GuestForm::Advance => {
            owned_guest_calls::forgelilac_owned_guest_advance(
                caller,
                &mut words.state,
                &words.table,
                kept,
            ) as u64
        }
        GuestForm::Commit => {
            owned_guest_calls::forgelilac_owned_guest_commit(
                caller,
                &mut words.state,
                &mut words.table,
                kept,
            )
        }
        GuestForm::PortRead(offset) => {
            owned_ports::forgelilac_owned_guest_port_read(
                caller,
                &words.state,
                &mut words.table,
                kept,
                offset,
            )
        }
        GuestForm::PortWrite(offset, value) => {
            owned_ports::forgelilac_owned_guest_port_write(
                caller,
                &words.state,
                &mut words.table,
                kept,
                offset,
                value,
            ) as u64
        }
        GuestForm::Read(view) => guest_read(words, kept, caller, view),
        GuestForm::Batch(row) => guest_batch(words, kept, caller, row),
    }
}

/// Makes a call of the library on a member's words and kept committees, and gives the library's answer.
pub fn make(words: &mut Words, kept: &mut [u64], call: LibraryCall) -> u64
    requires call { opens_none call ≡ true }
    requires owned { OwnedWords words.old kept.old }
    ensures words { words_of words.new ≡ after_call (words_of words.old) (told call.entry) }
    ensures answer { result
        ≡ answer_of call.entry (comes_of (words_of words.old) (told call.entry)) }
    ensures owned { OwnedWords words.new kept.new }
{
    match call {
        LibraryCall::Host(x) => make_host(words, kept, x),
        LibraryCall::Guest(caller, form) => make_guest(words, kept, caller, form),
    }
}

/// Makes the calls of a list, one after another, each on its member's words and kept committees, where all are owned, and no call is an open: after one a host resumes.
/// It leaves what a list of the public calls leaves, and all owned. Where the words are those that the members' accepted opens left, and the calls that they count as are a run: of the chains that two correct members' words tell one is a prefix of the other, and in the committee of every round that both know every member has the same weight.
pub fn run(hosts: &mut [Words], kept: &mut [Kept], entries: &[Entry])
    requires lengths { length kept.old ≡ length hosts.old }
    requires members { All (λ e. e.who < length hosts.old) entries.now }
    requires calls { All (λ e. opens_none e.call ≡ true) entries.now }
    requires owned { AllOwned hosts.old kept.old }
    ensures owned { AllOwned hosts.new kept.new }
    ensures run { (at : ℕ → library.Words) → Stand hosts.old at
        → Stand hosts.new (after_run at entries.now) }
    ensures chains { (X : Hosts) → Stand hosts.old (words_after X [])
        → AllTyped (newest entries.now []) → Run (members X) (calls_in X (newest entries.now []))
        → NeverFork X hosts.new }
    ensures committees { (X : Hosts) → Stand hosts.old (words_after X [])
        → AllTyped (newest entries.now []) → Run (members X) (calls_in X (newest entries.now []))
        → SameCommittees X hosts.new }
{
    for entry in entries {
        let _ = make(
            &mut hosts[entry.who],
            &mut kept[entry.who].words,
            entry.call,
        );
    }
}
