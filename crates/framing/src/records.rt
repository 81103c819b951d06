//! The records in the bytes at hand of a stream.

ghost use Rattle.std.specs.Prelude.{◌≡◌, false};
ghost use Rattle.framing.specs.AtHand.{AtHand, Tells, told};

use crate::{Event, next_step};
use std::marker::Model;

/// A record that is found in a stream.
#[derive(Clone, Copy)]
pub enum Framed<'a> {
    /// These are its bytes, without its CRLF.
    Readable(&'a [u8]),
    /// It is too long, or lacks its CRLF.
    Unreadable,
}

/// The bytes at hand, and whether a record that was answered goes on in them.
#[derive(Drop)]
pub struct Records<'a> {
    hand: &'a [u8],
    skipping: bool,
}

impl<'a> Model for Records<'a> {
    ghost Value = { AtHand };

    ghost view = { λ r. record { hand = r.hand.now; skipping = r.skipping } };
}

impl<'a> Records<'a> {
    /// Nothing is told yet of these bytes. `skipping` tells whether a record that was answered goes on in them.
    pub fn new(hand: &'a [u8], skipping: bool) -> Self
        ensures hand { result.hand ≡ hand.now }
        ensures skipping { result.skipping ≡ skipping }
    {
        Records { hand, skipping }
    }

    /// The bytes of which nothing is told yet.
    pub fn hand(&self) -> &'a [u8]
        ensures { result.now ≡ self.now.hand }
    {
        self.hand
    }

    /// Does a record that was answered go on in these bytes?
    pub fn is_skipping(&self) -> bool
        ensures { result ≡ self.now.skipping }
    {
        self.skipping
    }

    /// The next record; none where more bytes are wanted.
    pub fn next(&mut self) -> Option<Framed<'a>>
        ensures { Tells self.old (told result) self.new }
    {
        loop {
            let step = next_step(self.skipping, self.hand);
            let bytes = &self.hand[..step.length];
            self.hand = &self.hand[step.next..];
            self.skipping = step.skipping;
            match step.event {
                Event::Record => return Some(Framed::Readable(bytes)),
                Event::Unreadable => return Some(Framed::Unreadable),
                Event::Nothing if step.next == 0 => return None,
                Event::Nothing => {}
            }
        }
    }
}
