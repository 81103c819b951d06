//! Several members' hosts in one program: whatever list of the library's calls is made on their words, if it is a run, their chains never fork and their committees are alike.
//!
//! The calls are made by the functions that hosts link. The claim is the contract of `run`; docs/RULES.md, "What is claimed of runs".

ghost use Rattle.std.specs.Prelude.{◌≡◌, ◌<◌, ℕ, [], length, replicate, All};
ghost use Rattle.nonforking.specs.Statement.{Run};
ghost use Rattle.library.specs.Calls.{batch_by_guest};
ghost use Rattle.library.specs.Lists as library;
ghost use Rattle.library.specs.Lists.{after_call};
ghost use Rattle.library.specs.Hosts.{Hosts, AllTyped, members, calls_in, words_after};
ghost use Rattle.hosting.specs.Calls.{plain};
ghost use Rattle.host.specs.Told.{told, told_host, told_guest, comes_of, answer_of, answer_of_read, answer_of_host, answer_of_guest};
ghost use Rattle.host.specs.Runs.{words_of, Stand, after_run, newest, NeverFork, SameCommittees};

use crate::{
    batches, block_rows, calls, criticals, guest_calls, guest_ports, guest_views, port_calls,
    previews, queue_calls, views,
};
use batching::rows::CertificateRecord;

/// A read, a preview or a list. What stands in its out stretch is not looked at.
#[derive(Clone, Copy)]
pub enum View {
    Committee(u32),
    Share(u32, u32),
    Effect(u32, u32, u32),
    Certificate(u32, u32),
    Block(u32),
    Preview,
    Critical,
    BlockRows(u32, u32),
}

/// A call that a host makes, with what it lends.
#[derive(Clone, Copy)]
pub enum HostCall<'a> {
    Advance,
    Commit,
    Open(u32, &'a [u32], u32),
    Propose(&'a [u32]),
    Endorse(&'a [u32]),
    Certify(u32),
    Accept(&'a [u32]),
    Enqueue(u32, &'a [u32]),
    Draw(u32),
    PortReset(u32),
    Read(View),
    Batch(&'a [CertificateRecord]),
}

/// A call that a guest makes.
#[derive(Clone, Copy)]
pub enum GuestForm<'a> {
    Advance,
    Commit,
    Propose(&'a [u32]),
    Draw(u32),
    Enqueue(&'a [u32]),
    Endorse(&'a [u32]),
    Certify(u32),
    Accept(&'a [u32]),
    PortRead(u32),
    PortWrite(u32, u8),
    Read(View),
    Batch(&'a [CertificateRecord]),
}

/// A call of the library: the host's own, or that of a guest by its number.
#[derive(Clone, Copy)]
pub enum LibraryCall<'a> {
    Host(HostCall<'a>),
    Guest(u32, GuestForm<'a>),
}

/// One call on one member's words.
#[derive(Clone, Copy)]
pub struct Entry<'a> {
    pub who: usize,
    pub call: LibraryCall<'a>,
}

/// What a member's host keeps between calls.
#[derive(Drop)]
pub struct Words {
    pub state: Vec<u32>,
    pub table: Vec<u32>,
}

// A read of the host's own.
fn read(words: &mut Words, view: View) -> u64
    ensures words { words_of words.new
        ≡ after_call (words_of words.old) (told_host (HostCall.Read view)) }
    ensures answer { result
        ≡ answer_of_read view (comes_of (words_of words.old) (told_host (HostCall.Read view))) }
{
    match view {
        View::Committee(round) => {
            views::forgelilac_committee(&words.state, &words.table, round, &mut [0; 16]) as u64
        }
        View::Share(member, round) => {
            views::forgelilac_share(&words.state, &words.table, member, round)
        }
        View::Effect(member, round, amount) => {
            views::forgelilac_bond_effect(
                &words.state,
                &words.table,
                member,
                round,
                amount,
                &mut [0; 33],
            ) as u64
        }
        View::Certificate(author, round) => {
            views::forgelilac_certificate(
                &words.state,
                &words.table,
                author,
                round,
                &mut [0; 18],
            ) as u64
        }
        View::Block(number) => { views::forgelilac_block(&words.state, &words.table, number) }
        View::Preview => { previews::forgelilac_preview(&words.state, &words.table, &mut [0; 192]) }
        View::Critical => {
            criticals::forgelilac_critical(&words.state, &mut words.table, &mut [0; 64])
        }
        View::BlockRows(known, number) => {
            block_rows::forgelilac_block_rows(
                &words.state,
                &words.table,
                known,
                number,
                &mut [0; 576],
            )
        }
    }
}

// A call of the host's own.
fn make_host(words: &mut Words, call: HostCall) -> u64
    ensures words { words_of words.new ≡ after_call (words_of words.old) (told_host call.entry) }
    ensures answer { result
        ≡ answer_of_host call.entry (comes_of (words_of words.old) (told_host call.entry)) }
{
    match call {
        HostCall::Open(own, sheet, rights) => {
            calls::forgelilac_open(&mut words.state, &mut words.table, own, sheet, rights) as u64
        }
        HostCall::Propose(body) => {
            calls::forgelilac_propose(&mut words.state, &words.table, body) as u64
        }
        HostCall::Endorse(proposal) => {
            calls::forgelilac_endorse(&words.state, &mut words.table, proposal) as u64
        }
        HostCall::Certify(endorsers) => {
            calls::forgelilac_certify(&words.state, &mut words.table, endorsers) as u64
        }
        HostCall::Accept(certificate) => {
            calls::forgelilac_accept(&words.state, &mut words.table, certificate) as u64
        }
        HostCall::Advance => { calls::forgelilac_advance(&mut words.state, &words.table) as u64 }
        HostCall::Commit => { calls::forgelilac_commit(&mut words.state, &mut words.table) }
        HostCall::Enqueue(guest, transaction) => {
            queue_calls::forgelilac_enqueue(
                &words.state,
                &mut words.table,
                guest,
                transaction,
            ) as u64
        }
        HostCall::Draw(previous) => {
            queue_calls::forgelilac_draw(&mut words.state, &mut words.table, previous) as u64
        }
        HostCall::PortReset(guest) => {
            port_calls::forgelilac_port_reset(&words.state, &mut words.table, guest) as u64
        }
        HostCall::Read(view) => read(words, view),
        HostCall::Batch(row) => {
            batches::forgelilac_batch(&words.state, &mut words.table, row, &mut [0; 64]) as u64
        }
    }
}

// A read that a guest makes.
fn guest_read(words: &mut Words, caller: u32, view: View) -> u64
    ensures words { words_of words.new
        ≡ after_call (words_of words.old) (told_guest caller (GuestForm.Read view)) }
    ensures answer { result
        ≡ answer_of_read view
        (comes_of (words_of words.old) (told_guest caller (GuestForm.Read view))) }
{
    match view {
        View::Committee(round) => {
            guest_views::forgelilac_guest_committee(
                caller,
                &words.state,
                &words.table,
                round,
                &mut [0; 16],
            ) as u64
        }
        View::Share(member, round) => {
            guest_views::forgelilac_guest_share(caller, &words.state, &words.table, member, round)
        }
        View::Effect(member, round, amount) => {
            guest_views::forgelilac_guest_bond_effect(
                caller,
                &words.state,
                &words.table,
                member,
                round,
                amount,
                &mut [0; 33],
            ) as u64
        }
        View::Certificate(author, round) => {
            guest_views::forgelilac_guest_certificate(
                caller,
                &words.state,
                &words.table,
                author,
                round,
                &mut [0; 18],
            ) as u64
        }
        View::Block(number) => {
            guest_views::forgelilac_guest_block(caller, &words.state, &words.table, number)
        }
        View::Preview => {
            guest_views::forgelilac_guest_preview(caller, &words.state, &words.table, &mut [0; 192])
        }
        View::Critical => {
            guest_views::forgelilac_guest_critical(
                caller,
                &words.state,
                &mut words.table,
                &mut [0; 64],
            )
        }
        View::BlockRows(known, number) => {
            guest_views::forgelilac_guest_block_rows(
                caller,
                &words.state,
                &words.table,
                known,
                number,
                &mut [0; 576],
            )
        }
    }
}

// A row of certificates that a guest hands in.
fn guest_batch(words: &mut Words, caller: u32, row: &[CertificateRecord]) -> u64
    ensures words { words_of words.new
        ≡ after_call (words_of words.old) (batch_by_guest caller row.now (replicate 64 0)) }
    ensures answer { result
        ≡ plain (comes_of (words_of words.old) (batch_by_guest caller row.now (replicate 64 0))) }
{
    batches::forgelilac_guest_batch(
        caller,
        &words.state,
        &mut words.table,
        row,
        &mut [0; 64],
    ) as u64
}

// A guest's call.
fn make_guest(words: &mut Words, caller: u32, form: GuestForm) -> u64
    ensures words { words_of words.new
        ≡ after_call (words_of words.old) (told_guest caller form.entry) }
    ensures answer { result
        ≡ answer_of_guest form.entry
        (comes_of (words_of words.old) (told_guest caller form.entry)) }
{
    match form {
        GuestForm::Propose(body) => {
            guest_calls::forgelilac_guest_propose(
                caller,
                &mut words.state,
                &words.table,
                body,
            ) as u64
        }
        GuestForm::Draw(previous) => {
            guest_calls::forgelilac_guest_draw(
                caller,
                &mut words.state,
                &mut words.table,
                previous,
            ) as u64
        }
        GuestForm::Enqueue(transaction) => {
            guest_calls::forgelilac_guest_enqueue(
                caller,
                &words.state,
                &mut words.table,
                transaction,
            ) as u64
        }
        GuestForm::Endorse(proposal) => {
            guest_calls::forgelilac_guest_endorse(
                caller,
                &words.state,
                &mut words.table,
                proposal,
            ) as u64
        }
        GuestForm::Certify(endorsers) => {
            guest_calls::forgelilac_guest_certify(
                caller,
                &words.state,
                &mut words.table,
                endorsers,
            ) as u64
        }
        GuestForm::Accept(certificate) => {
            guest_calls::forgelilac_guest_accept(
                caller,
                &words.state,
                &mut words.table,
                certificate,
            ) as u64
        }
        GuestForm::Advance => {
            guest_calls::forgelilac_guest_advance(caller, &mut words.state, &words.table) as u64
        }
        GuestForm::Commit => {
            guest_calls::forgelilac_guest_commit(caller, &mut words.state, &mut words.table)
        }
        GuestForm::PortRead(offset) => {
            guest_ports::forgelilac_guest_port_read(caller, &words.state, &mut words.table, offset)
        }
        GuestForm::PortWrite(offset, value) => {
            guest_ports::forgelilac_guest_port_write(
                caller,
                &words.state,
                &mut words.table,
                offset,
                value,
            ) as u64
        }
        GuestForm::Read(view) => guest_read(words, caller, view),
        GuestForm::Batch(row) => guest_batch(words, caller, row),
    }
}

/// Makes a call of the library on a member's words, and gives the library's answer.
pub fn make(words: &mut Words, call: LibraryCall) -> u64
    ensures words { words_of words.new ≡ after_call (words_of words.old) (told call.entry) }
    ensures answer { result
        ≡ answer_of call.entry (comes_of (words_of words.old) (told call.entry)) }
{
    match call {
        LibraryCall::Host(x) => make_host(words, x),
        LibraryCall::Guest(caller, form) => make_guest(words, caller, form),
    }
}

/// Makes the calls of a list, one after another, each on its member's words.
/// Where the words are those that the members' accepted opens left, and the calls that they count as are a run: of the chains that two correct members' words tell one is a prefix of the other, and in the committee of every round that both know every member has the same weight.
pub fn run(hosts: &mut [Words], entries: &[Entry])
    requires { All (λ e. e.who < length hosts.old) entries.now }
    ensures run { (at : ℕ → library.Words) → Stand hosts.old at
        → Stand hosts.new (after_run at entries.now) }
    ensures chains { (X : Hosts) → Stand hosts.old (words_after X [])
        → AllTyped (newest entries.now []) → Run (members X) (calls_in X (newest entries.now []))
        → NeverFork X hosts.new }
    ensures committees { (X : Hosts) → Stand hosts.old (words_after X [])
        → AllTyped (newest entries.now []) → Run (members X) (calls_in X (newest entries.now []))
        → SameCommittees X hosts.new }
{
    for entry in entries {
        let _ = make(&mut hosts[entry.who], entry.call);
    }
}
