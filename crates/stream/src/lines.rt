// Lines that wait to be handed out, in lent memory.
ghost use Rattle.std.specs.Prelude.{◌≡◌, ◌+◌, ◌≤◌, length, take, []};
ghost use Rattle.framing.specs.AtHand.{record_now};
ghost use Rattle.stream.specs.Lines.{Put};
ghost use Rattle.stream.specs.Answers.{Served};

use crate::Engine;
use framing::records::Framed;
use std::marker::Model;

/// The lines, and the memory that they lie in: at its front, with room behind them.
#[derive(Drop)]
pub(crate) struct Lines<'a> {
    memory: &'a mut [u8],
    count: usize,
}

impl<'a> Model for Lines<'a> {
    ghost Value = { Put };

    ghost view = { λ l. record { bytes = take l.count l.memory.now; room = length l.memory.now } };

    ghost invariant = { λ l. l.count ≤ length l.memory.now };
}

impl<'a> Lines<'a> {
    /// No line yet, in this memory.
    pub fn new(memory: &'a mut [u8]) -> Self
        ensures bytes { result.bytes ≡ [] }
        ensures room { result.room ≡ length memory.old }
    {
        Lines { memory, count: 0 }
    }

    /// How many more bytes there is room for.
    pub fn free(&self) -> usize
        ensures { result + length self.now.bytes ≡ self.now.room }
    {
        self.memory.len() - self.count
    }

    /// The bytes that were put, in their order.
    pub fn bytes(&self) -> &[u8]
        ensures { result.now ≡ self.now.bytes }
    {
        &self.memory[..self.count]
    }

    /// Has the engine serve a record, and puts its answer behind what was put.
    pub fn put_answer<E: Engine>(&mut self, engine: &mut E, found: Framed)
        requires { length self.old.bytes + E.most engine.old ≤ self.old.room }
        ensures served { Served E.after E.answer engine.old engine.new (record_now found.entry)
            self.old self.new }
        ensures room { self.new.room ≡ self.old.room }
        ensures most { E.most engine.new ≡ E.most engine.old }
    {
        let n = engine.serve(found, &mut self.memory[self.count..]);
        self.count += n;
    }
}
