//! Where records end in a stream of bytes.
//!
//! The bytes come piece by piece: a record, an unreadable one, or nothing yet (specs/Framing), so that all pieces together give the records of the whole stream (specs/Streams). docs/RULES.md, "Records".
#![tactic(auto)]

pub mod records;
pub mod theorems;

ghost use Rattle.std.specs.Prelude.{◌≡◌, ◌≤◌, length};
ghost use Rattle.framing.specs.Streams.{until_end};
ghost use Rattle.framing.specs.Framing.{passed, ended_event, open_step, step_of};

/// The bytes of the longest record, without its CRLF.
pub const LONGEST: usize = 1022;
/// The bytes of the longest record, with its CRLF.
pub const LONGEST_ENDED: usize = LONGEST + 2;

/// What a step tells of a record.
#[derive(Debug, Clone, Copy)]
pub(crate) enum Event {
    /// Nothing yet.
    Nothing,
    /// A record of at most 1,024 bytes with its CRLF.
    Record,
    /// A record that is longer, or lacks its CRLF.
    Unreadable,
}

/// A step through the bytes at hand.
#[derive(Debug, Clone, Copy)]
pub(crate) struct Step {
    /// What it tells.
    pub event: Event,
    /// The bytes of its record, without the CRLF.
    pub length: usize,
    /// The place where the next step begins. It is 0 where more bytes are wanted.
    pub next: usize,
    /// Whether a record that was answered goes on there.
    pub skipping: bool,
}

// The place of the first CRLF, or the end where there is none.
#[tactic(auto, using(crate::proofs::StreamLaws::end_here, crate::proofs::StreamLaws::end_later, crate::proofs::StreamLaws::end_last))]
fn find_end(bytes: &[u8]) -> usize
    ensures { result ≡ length (until_end bytes.now) }
{
    for i in 0..bytes.len().saturating_sub(1) {
        if bytes[i] == b'\r' && bytes[i + 1] == b'\n' {
            return i;
        }
    }
    bytes.len()
}

// The place up to which bytes without a CRLF can be let go of: a CR at the end stays.
#[tactic(auto, using(crate::proofs::ChunkLaws::passed_none, crate::proofs::ChunkLaws::passed_kept, crate::proofs::ChunkLaws::passed_all))]
fn find_passed(bytes: &[u8]) -> usize
    ensures place { result ≡ passed bytes.now }
    ensures within { result ≤ length bytes.now }
{
    let count = bytes.len();
    if count > 0 && bytes[count - 1] == b'\r' {
        count - 1
    } else {
        count
    }
}

// What is to tell of a record whose CRLF is `end` bytes from here.
fn ended_event(skipping: bool, end: usize) -> Event
    ensures { result ≡ ended_event skipping end }
{
    if skipping {
        Event::Nothing
    } else if end <= LONGEST {
        Event::Record
    } else {
        Event::Unreadable
    }
}

// The step where no CRLF is at hand.
fn step_open(skipping: bool, bytes: &[u8]) -> Step
    ensures step { result ≡ open_step skipping bytes.now }
    ensures next { result.next ≤ length bytes.now }
{
    let (event, next, skipping) = if skipping {
        (Event::Nothing, find_passed(bytes), true)
    } else if bytes.len() < LONGEST_ENDED {
        (Event::Nothing, 0, false)
    } else {
        (Event::Unreadable, find_passed(bytes), true)
    };
    Step {
        event,
        length: 0,
        next,
        skipping,
    }
}

/// The first step through the bytes at hand. `skipping` tells whether a record that was answered goes on in them.
#[tactic(auto, using(crate::proofs::FramingLaws::step_ended, crate::proofs::FramingLaws::step_open, crate::proofs::StreamLaws::end_room))]
pub(crate) fn next_step(skipping: bool, bytes: &[u8]) -> Step
    ensures step { result ≡ step_of skipping bytes.now }
    ensures length { result.length ≤ length bytes.now }
    ensures next { result.next ≤ length bytes.now }
{
    let end = find_end(bytes);
    if end < bytes.len() {
        Step {
            event: ended_event(skipping, end),
            length: end,
            next: end + 2,
            skipping: false,
        }
    } else {
        step_open(skipping, bytes)
    }
}
