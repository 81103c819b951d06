// The bytes at hand of a stream, in lent memory: at its front, with room behind them.
ghost use Rattle.std.specs.Prelude.{◌≡◌, false, [], ◌++◌, ◌-◌, ◌<◌, ◌≤◌, length, take, drop};
ghost use Rattle.stream.specs.Held.{Held};
ghost use Rattle.stream.specs.Passes.{in_record, MoreCame};

use crate::peer::Peer;
use framing::records::Records;
use std::io;
use std::marker::Model;

/// The bytes at hand, and the memory that they lie in.
#[derive(Drop)]
pub(crate) struct Hand<'a> {
    memory: &'a mut [u8],
    count: usize,
    skipping: bool,
}

impl<'a> Model for Hand<'a> {
    ghost Value = { Held };

    ghost view = { λ h. record {
      here = record { hand = take h.count h.memory.now; skipping = h.skipping };
      size = length h.memory.now;
    } };

    ghost invariant = { λ h. h.count ≤ length h.memory.now };
}

impl<'a> Hand<'a> {
    /// No byte is at hand yet, in this memory.
    pub fn new(memory: &'a mut [u8]) -> Self
        ensures empty { result.here ≡ record { hand = []; skipping = false } }
        ensures size { result.size ≡ length memory.old }
    {
        Hand {
            memory,
            count: 0,
            skipping: false,
        }
    }

    /// The records in the bytes at hand.
    pub fn records(&self) -> Records<'_>
        ensures { result ≡ self.now.here }
    {
        Records::new(&self.memory[..self.count], self.skipping)
    }

    /// Is a record begun that was not answered?
    pub fn is_in_record(&self) -> bool
        ensures { result ≡ in_record self.now.here }
    {
        !self.skipping && self.count > 0
    }

    /// Keeps the last bytes, so many, at the front of the memory. `skipping` tells whether a record that was answered goes on in them.
    pub fn keep(&mut self, count: usize, skipping: bool)
        requires { count ≤ length self.old.here.hand }
        ensures hand { self.new.here.hand
            ≡ drop (length self.old.here.hand - count) self.old.here.hand }
        ensures skipping { self.new.here.skipping ≡ skipping }
        ensures size { self.new.size ≡ self.old.size }
    {
        self.memory.copy_within(self.count - count..self.count, 0);
        self.count = count;
        self.skipping = skipping;
    }

    /// Reads more bytes behind those at hand, by one read. Gives how many came, none, 0, at the end of the input; or why the read failed.
    pub fn more<P: Peer>(&mut self, peer: &mut P) -> io::Result<usize>
        requires { length self.old.here.hand < self.old.size }
        ensures { MoreCame P.talk self.old result self.new peer.old peer.new }
    {
        let count = peer.read(&mut self.memory[self.count..])?;
        self.count += count;
        Ok(count)
    }
}
