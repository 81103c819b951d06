//! A list of calls made on several members' words by the calls of hosts that own them: it answers and leaves what the list of public calls does, so their chains never fork over it where it is a run.
//!
//! The functions that hosts link hand their words to these calls, each in one line under the same clauses. The claim is the contract of `run`; docs/RULES.md, "What is claimed of runs".

ghost use Rattle.std.specs.Prelude.{◌≡◌, ◌<◌, ℕ, [], length, All};
ghost use Rattle.nonforking.specs.Statement.{Run};
ghost use Rattle.library.specs.Calls.{comes_to};
ghost use Rattle.library.specs.Lists as library;
ghost use Rattle.library.specs.Lists.{after_call};
ghost use Rattle.library.specs.Hosts.{Hosts, AllTyped, members, calls_in, words_after};
ghost use Rattle.hosting.specs.Guested.{caller_number};
ghost use Rattle.owned.specs.Owned.{Owned};
ghost use Rattle.refusals.specs.declared.Refusal.{Refusal};
ghost use Rattle.refusals.specs.Refusals.{number_of};
ghost use Rattle.terms.specs.declared.rights.Right.{Right};
ghost use Rattle.replaying.specs.Told.{right_of, told, told_host, told_guest, comes_of, answer_of, answer_of_host, answer_of_guest, refused_guest};
ghost use Rattle.replaying.specs.Runs.{words_of, OwnedWords, AllOwned, Stand, after_run, answers_of, newest, NeverFork, SameCommittees};

use crate::calls::{Call, Entry, GuestCall, HostCall, Keeper};
use hosting::guesting;
use owned::{batches, calls, port_calls, queue_calls};
use refusals::Refusal;
use terms::rights::Right;

// A call of the host's own.
fn make_host(keeper: &mut Keeper, call: &HostCall) -> u64
    requires { OwnedWords keeper.old }
    ensures words { words_of keeper.new ≡ after_call (words_of keeper.old) (told_host call.now) }
    ensures answer { result
        ≡ answer_of_host call.now (comes_of (words_of keeper.old) (told_host call.now)) }
    ensures owned { OwnedWords keeper.new }
{
    let state = &mut keeper.state;
    let table = &mut keeper.table;
    let kept = &mut keeper.kept;
    match call {
        HostCall::Propose(body) => {
            hosting::plain(calls::propose(state, table, kept, body)) as u64
        }
        HostCall::Draw(previous) => {
            hosting::plain(queue_calls::draw(state, table, kept, *previous)) as u64
        }
        HostCall::Enqueue(guest, transaction) => {
            hosting::plain(queue_calls::enqueue(state, table, kept, *guest, transaction)) as u64
        }
        HostCall::Endorse(proposal) => {
            hosting::plain(calls::endorse(state, table, kept, proposal)) as u64
        }
        HostCall::Certify(endorsers) => {
            hosting::plain(calls::certify(state, table, kept, *endorsers)) as u64
        }
        HostCall::Accept(certificate) => {
            hosting::plain(calls::accept(state, table, kept, certificate)) as u64
        }
        HostCall::Batch(row) => {
            hosting::plain(batches::batch(state, table, kept, row, &mut [0; 64])) as u64
        }
        HostCall::Advance => hosting::plain(calls::advance(state, table, kept)) as u64,
        HostCall::Commit => hosting::packed(calls::commit(state, table, kept)),
        HostCall::PortReset(guest) => {
            hosting::plain(port_calls::port_reset(state, table, kept, *guest)) as u64
        }
    }
}

// The right that a guest's call needs.
fn right_of(call: &GuestCall) -> Right
    ensures { result ≡ right_of call.now }
{
    match call {
        GuestCall::Propose(_) | GuestCall::Draw(_) | GuestCall::Enqueue(_) => Right::Propose,
        GuestCall::Endorse(_)
        | GuestCall::Certify(_)
        | GuestCall::Accept(_)
        | GuestCall::Batch(_) => Right::Sign,
        GuestCall::Advance | GuestCall::Commit => Right::Drive,
        GuestCall::PortRead(_) | GuestCall::PortWrite(_, _) => Right::Read,
    }
}

// The answer to a guest's call that its caller may not make.
fn refused(call: &GuestCall, refusal: Refusal) -> u64
    ensures { result ≡ refused_guest call.now (number_of refusal) }
{
    match call {
        GuestCall::Commit | GuestCall::PortRead(_) => hosting::packed(Err(refusal)),
        _ => hosting::plain(Err(refusal)) as u64,
    }
}

// A guest's call by a caller who may make it, on the words of its host's member.
#[tactic(auto, using(hosting::proofs::Answered::guest_allowed))]
fn make_allowed(
    state: &mut [u32],
    table: &mut [u32],
    kept: &mut [u64],
    caller: u32,
    call: &GuestCall,
) -> u64
    requires owned { Owned state.old table.old kept.old }
    requires right { caller_number state.old caller (right_of call.now) ≡ 0 }
    ensures answer { result
        ≡ answer_of_guest call.now (comes_to state.old table.old (told_guest caller call.now)) }
    ensures state { state.new ≡ (comes_to state.old table.old (told_guest caller call.now)).state }
    ensures table { table.new ≡ (comes_to state.old table.old (told_guest caller call.now)).table }
    ensures owned { Owned state.new table.new kept.new }
{
    match call {
        GuestCall::Propose(body) => {
            hosting::plain(calls::propose(state, table, kept, body)) as u64
        }
        GuestCall::Draw(previous) => {
            hosting::plain(queue_calls::draw(state, table, kept, *previous)) as u64
        }
        GuestCall::Enqueue(transaction) => {
            hosting::plain(queue_calls::enqueue(state, table, kept, caller, transaction)) as u64
        }
        GuestCall::Endorse(proposal) => {
            hosting::plain(calls::endorse(state, table, kept, proposal)) as u64
        }
        GuestCall::Certify(endorsers) => {
            hosting::plain(calls::certify(state, table, kept, *endorsers)) as u64
        }
        GuestCall::Accept(certificate) => {
            hosting::plain(calls::accept(state, table, kept, certificate)) as u64
        }
        GuestCall::Batch(row) => {
            hosting::plain(batches::batch(state, table, kept, row, &mut [0; 64])) as u64
        }
        GuestCall::Advance => hosting::plain(calls::advance(state, table, kept)) as u64,
        GuestCall::Commit => hosting::packed(calls::commit(state, table, kept)),
        GuestCall::PortRead(offset) => {
            hosting::packed(port_calls::port_read(state, table, kept, caller, *offset))
        }
        GuestCall::PortWrite(offset, value) => {
            hosting::plain(port_calls::port_write(
                state, table, kept, caller, *offset, *value,
            )) as u64
        }
    }
}

// A guest's call: the caller's right, and then the call.
#[tactic(auto, using(crate::proofs::Guests::guest_unchanged, crate::proofs::Guests::guest_answer, hosting::proofs::Answered::some_number))]
fn make_guest(keeper: &mut Keeper, caller: u32, call: &GuestCall) -> u64
    requires { OwnedWords keeper.old }
    ensures words { words_of keeper.new
        ≡ after_call (words_of keeper.old) (told_guest caller call.now) }
    ensures answer { result
        ≡ answer_of_guest call.now (comes_of (words_of keeper.old) (told_guest caller call.now)) }
    ensures owned { OwnedWords keeper.new }
{
    match guesting::check(&keeper.state, right_of(call), caller) {
        Ok(()) => make_allowed(
            &mut keeper.state,
            &mut keeper.table,
            &mut keeper.kept,
            caller,
            call,
        ),
        Err(refusal) => refused(call, refusal),
    }
}

/// Makes a call on what a member's host keeps, and gives the library's answer: the number that refuses it, 0 for none; of a commit and of a port's read that number in the high 32 bits, and the value in the low ones.
pub fn make(keeper: &mut Keeper, call: &Call) -> u64
    requires { OwnedWords keeper.old }
    ensures words { words_of keeper.new ≡ after_call (words_of keeper.old) (told call.now) }
    ensures answer { result ≡ answer_of call.now (comes_of (words_of keeper.old) (told call.now)) }
    ensures owned { OwnedWords keeper.new }
{
    match call {
        Call::Host(x) => make_host(keeper, x),
        Call::Guest(caller, x) => make_guest(keeper, *caller, x),
    }
}

/// Makes the calls of a list, one after another, each on what its member's host keeps, and gives the answer to each.
/// It leaves what a list of the public calls leaves, answers what they answer, and all stay owned. Where the words are those that the members' accepted opens left, and the calls that they count as are a run: of the chains that two correct members' words tell one is a prefix of the other, and in the committee of every round that both know every member has the same weight.
pub fn run(keepers: &mut [Keeper], entries: &[Entry], answers: &mut [u64])
    requires lengths { length answers.old ≡ length entries.now }
    requires members { All (λ e. e.who < length keepers.old) entries.now }
    requires owned { AllOwned keepers.old }
    ensures owned { AllOwned keepers.new }
    ensures run { (at : ℕ → library.Words) → Stand keepers.old at
        → Stand keepers.new (after_run at entries.now) }
    ensures answers { (at : ℕ → library.Words) → Stand keepers.old at
        → answers.new ≡ answers_of at entries.now }
    ensures chains { (X : Hosts) → Stand keepers.old (words_after X [])
        → AllTyped (newest entries.now []) → Run (members X) (calls_in X (newest entries.now []))
        → NeverFork X keepers.new }
    ensures committees { (X : Hosts) → Stand keepers.old (words_after X [])
        → AllTyped (newest entries.now []) → Run (members X) (calls_in X (newest entries.now []))
        → SameCommittees X keepers.new }
{
    for i in 0..entries.len() {
        let entry = &entries[i];
        answers[i] = make(&mut keepers[entry.who], &entry.call);
    }
}
