//! A stream of records, served one after another.
//!
//! Each record that is found in the bytes at hand is answered, in order, for any engine and any reader and writer: what can be answered is handed out before more is read. docs/RULES.md, "Records".
#![tactic(auto)]

pub mod ended;
pub mod hand;
pub mod lines;
pub mod passed;
pub mod peer;
pub mod run;
pub mod tied;

ghost use Rattle.std.specs.Prelude.{◌≡◌, ◌≤◌, List, ℕ, Option, length, take};
ghost use Rattle.framing.specs.AtHand.{record_now};
ghost use Rattle.stream.specs.Answers.{Answered};

use crate::lines::Lines;
use framing::records::{Framed, Records};

/// What serves records.
pub trait Engine {
    // The engine after a record, none an unreadable one, the bytes that answer it, and how many they are at most.
    ghost after: { Self → Option (List ℕ) → Self };

    ghost answer: { Self → Option (List ℕ) → List ℕ };

    ghost most: { Self → ℕ };

    /// How many bytes its longest answer has.
    fn most(&self) -> usize
        ensures { result ≡ most self.now };

    /// Serves a record, and puts its answer at the front of the memory. Gives how many bytes it has.
    fn serve(&mut self, found: Framed, out: &mut [u8]) -> usize
        requires { most self.old ≤ length out.old }
        ensures engine { self.new ≡ after self.old (record_now found.entry) }
        ensures answer { take result out.new ≡ answer self.old (record_now found.entry) }
        ensures within { result ≤ length out.new }
        ensures steady { most self.new ≡ most self.old };
}

/// What it takes to go on.
#[derive(Debug, Clone, Copy)]
pub(crate) enum Wanted {
    /// More bytes: nothing at hand can be answered.
    Bytes,
    /// More room: the longest answer would not fit.
    Room,
}

/// Serves the records at hand, until more bytes are wanted, or more room.
pub(crate) fn answer_all<E: Engine>(
    engine: &mut E,
    records: &mut Records,
    out: &mut Lines,
) -> Wanted
    ensures { Answered E.after E.answer E.most result engine.old records.old engine.new
        records.new out.old out.new }
{
    while engine.most() <= out.free() {
        let Some(found) = records.next() else {
            return Wanted::Bytes;
        };
        out.put_answer(engine, found);
    }
    Wanted::Room
}
