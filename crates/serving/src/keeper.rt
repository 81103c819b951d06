//! What is kept of a member between the records of a stream, and what each record does to it.

ghost use Rattle.std.specs.Prelude.{◌≡◌, ◌+◌, ◌-◌, ◌*◌, ◌≤◌, length, IfOk, Some};
ghost use Rattle.std.specs.Option.{option_and_then};
ghost use Rattle.base.specs.Puts.{Puts};
ghost use Rattle.framing.specs.AtHand.{record_now};
ghost use Rattle.records.specs.Records.{record_in};
ghost use Rattle.refusals.specs.Refusals.{refusal_in};
ghost use Rattle.open.specs.Open.{closed_state};
ghost use Rattle.commit.specs.Commit.{blocks_then};
ghost use Rattle.engine.specs.Calls.{opens, commit, aside, listing};
ghost use Rattle.engine.specs.Engine.{refusal_for, after};
ghost use Rattle.replies.specs.Asked.{call_of};
ghost use Rattle.replies.specs.Records.{engine_of, lines_for, RecordAnswered};
ghost use Rattle.serving.specs.Lengths.{table_length};

use accept::accept_cached;
use advance::advance_cached;
use certify::certify_cached;
use chain_committees::chain::Chain;
use commit::commit_cached;
use endorse::endorse_cached;
use framing::records::Framed;
use listing::lines;
use propose::propose_cached;
use records::{Record, record_in};
use refusals::Refusal;
use replies::answer::{put_answer, put_committed};
use replies::cached;
use state::State;
use std::marker::Model;
use stream::Engine;
use terms::Member;
use terms::sheet::Sheet;

/// A state, whether it is well formed, the table, and the committees that are cached beside it. Contracts see the engine of state and table.
#[derive(Drop)]
pub(crate) struct Keeper<'a> {
    state: State,
    formed: bool,
    cache: &'a mut [u64],
    table: &'a mut [u32],
}

impl<'a> Model for Keeper<'a> {
    ghost use Rattle.engine.specs.Engine.{Engine};
    ghost use Rattle.replies.specs.Records.{engine_of};
    ghost use Rattle.serving.specs.Keeping.{Kept};

    ghost Value = { Engine };

    ghost view = { λ k. engine_of k.state k.table.now };

    ghost invariant = { λ k. Kept k.state k.table.now k.formed k.cache.now };
}

impl<'a> Keeper<'a> {
    /// Keeps these committees and this table, of ceiling 64, for a member that is not open yet.
    pub fn new(cache: &'a mut [u64], table: &'a mut [u32]) -> Self
        requires { length table.old ≡ table_length }
        ensures engine { result ≡ engine_of closed_state table.old }
        ensures size { length result.table ≡ table_length }
    {
        Keeper {
            state: open::closed(),
            formed: false,
            cache,
            table,
        }
    }

    // Makes the call that a record asks for, and puts the lines that answer it at the front of the buffer. Gives how many bytes they have.
    fn answer(&mut self, asked: Record, out: &mut [u8]) -> usize
        requires { length self.old.table * 9 + 20 ≤ length out.old }
        ensures answered { RecordAnswered self.old (Some (call_of asked)) self.new
            out.old out.new result }
        ensures size { length self.new.table ≡ length self.old.table }
    {
        let formed = self.formed;
        let state = &mut self.state;
        let cache = &mut *self.cache;
        let table = &mut *self.table;
        match asked {
            Record::Open(own, sheet) => put_answer(self.open(own, sheet), out),
            Record::Propose(body) => {
                put_answer(propose_cached(formed, cache, state, table, body), out)
            }
            Record::Endorse(proposal) => {
                put_answer(endorse_cached(formed, cache, state, table, proposal), out)
            }
            Record::Certify(endorsers) => {
                put_answer(certify_cached(formed, cache, state, table, endorsers), out)
            }
            Record::Accept(certificate) => {
                put_answer(accept_cached(formed, cache, state, table, certificate), out)
            }
            Record::Advance => put_answer(advance_cached(formed, cache, state, table), out),
            Record::Commit => put_committed(self.commit(), out),
            Record::Chain => self.list(out),
        }
    }

    // Opens the member by its number and a sheet. Where it is accepted the state is well formed then, and the committees are cached anew.
    #[inline(never)]
    fn open(&mut self, own: Member, written: Sheet) -> Result<(), Refusal>
        ensures refusal { refusal_in result ≡ refusal_for self.old (opens own written) }
        ensures engine { self.new ≡ after self.old (opens own written) }
        ensures size { length self.new.table ≡ length self.old.table }
    {
        open::open(&mut self.state, self.table, own, written)?;
        self.formed = true;
        cached::renew(true, &mut self.state, &mut *self.table, self.cache);
        Ok(())
    }

    // Commits. Where it is accepted the committees are cached anew, and otherwise those that were cached stay.
    fn commit(&mut self) -> Result<u32, Refusal>
        ensures refusal { refusal_in result ≡ refusal_for self.old commit }
        ensures value { IfOk result
            (λ n. n ≡ blocks_then self.old.state self.old.table - self.old.state.blocks) }
        ensures engine { self.new ≡ after self.old commit }
        ensures size { length self.new.table ≡ length self.old.table }
    {
        let added = commit_cached(self.formed, &mut self.state, self.table)?;
        cached::renew(self.formed, &mut self.state, &mut *self.table, self.cache);
        Ok(added)
    }

    // Puts the lines of the chain, one for each certificate of each block in their order, and `ok` after them; or `refused` and 1, where the state is not well formed. Gives how many bytes they have.
    fn list(&self, out: &mut [u8]) -> usize
        requires { length self.now.table * 9 + 20 ≤ length out.old }
        ensures { Puts out.old out.new 0 result (lines_for self.now (aside listing))
            (length self.now.table * 9 + 20) }
    {
        if !self.formed {
            return lines::put_refused(out, 0, Refusal::Malformed.number());
        }
        let chain = Chain::new(self.table, &self.state.settings, self.state.blocks);
        let next = listing::list_chain(chain, out, 0);
        lines::put_ok(out, next)
    }
}

// What a record that was found says, none where it cannot be read.
fn read(found: Framed) -> Option<Record>
    ensures { result ≡ option_and_then record_in (record_now found.entry) }
{
    match found {
        Framed::Readable(bytes) => record_in(bytes),
        Framed::Unreadable => None,
    }
}

impl Engine for Keeper<'_> {
    ghost use Rattle.std.specs.Prelude.{◌+◌, ◌*◌, length};
    ghost use Rattle.serving.specs.Streams.{engine_after, lines_after};

    ghost after = { engine_after };

    ghost answer = { lines_after };

    ghost most = { λ e. length e.table * 9 + 20 };

    // A chain has the longest answer.
    fn most(&self) -> usize {
        self.table.len() * 9 + 20
    }

    // An unreadable record is answered with 24 and changes nothing.
    fn serve(&mut self, found: Framed, out: &mut [u8]) -> usize {
        match read(found) {
            None => lines::put_refused(out, 0, Refusal::Unreadable.number()),
            Some(asked) => self.answer(asked, out),
        }
    }
}
