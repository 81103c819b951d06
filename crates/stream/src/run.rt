// A whole run: pass after pass to the end of the input, in memory that is lent.
ghost use Rattle.std.specs.Prelude.{◌≡◌, ◌≤◌, length};
ghost use Rattle.framing.specs.declared.TheConstants.{LONGEST_ENDED};
ghost use Rattle.stream.specs.Answers.{Answered};
ghost use Rattle.stream.specs.Passes.{PassDone, FinishDone};
ghost use Rattle.stream.specs.Talk.{Ran};

use crate::ended::Ended;
use crate::hand::Hand;
use crate::lines::Lines;
use crate::passed::Passed;
use crate::peer::{Peer, hand_out};
use crate::{Engine, Wanted, answer_all};
use framing::records::Framed;

// Answers the records at hand, and keeps the bytes that are left.
fn answer_hand<E: Engine>(engine: &mut E, hand: &mut Hand, lines: &mut Lines) -> Wanted
    ensures answers { Answered E.after E.answer E.most result engine.old hand.old.here engine.new
        hand.new.here lines.old lines.new }
    ensures size { hand.new.size ≡ hand.old.size }
{
    let mut records = hand.records();
    let wanted = answer_all(engine, &mut records, lines);
    let left = records.hand().len();
    let skipping = records.is_skipping();
    hand.keep(left, skipping);
    wanted
}

// Answers the records at hand and hands the answers out; only then reads more.
fn pass<P: Peer, E: Engine>(peer: &mut P, engine: &mut E, hand: &mut Hand, out: &mut [u8]) -> Passed
    requires buffer { LONGEST_ENDED ≤ hand.old.size }
    requires room { E.most engine.old ≤ length out.old }
    ensures { PassDone E.after E.answer E.most P.talk engine.old hand.old peer.old engine.new
        hand.new peer.new result }
{
    let mut lines = Lines::new(out);
    let wanted = answer_hand(engine, hand, &mut lines);
    if let Err(why) = hand_out(peer, lines.bytes()) {
        return Passed::Lost(why);
    }
    match wanted {
        Wanted::Room => Passed::On,
        Wanted::Bytes => match hand.more(peer) {
            Ok(0) => Passed::Over,
            Ok(_) => Passed::On,
            Err(why) => Passed::Cut(why),
        },
    }
}

// Answers the record that was begun, and hands the answer out. Gives how the run ended.
fn finish<P: Peer, E: Engine>(
    peer: &mut P,
    engine: &mut E,
    hand: &Hand,
    out: &mut [u8],
    ended: Ended,
) -> Ended
    requires room { E.most engine.old ≤ length out.old }
    ensures { FinishDone E.after E.answer E.most P.talk engine.old hand.now peer.old engine.new
        peer.new ended result }
{
    let mut lines = Lines::new(out);
    if hand.is_in_record() {
        lines.put_answer(engine, Framed::Unreadable);
    }
    match hand_out(peer, lines.bytes()) {
        Ok(()) => ended,
        Err(why) => Ended::WriteFailed(why),
    }
}

/// Serves all records of the input, and hands the answers out before it reads more. `buffer` is for bytes that came, `out` for answers that go out: each answer has room there. Gives how the run ended; what is out by then is a first part of the answers to what came, and all of it where the input came to its end.
pub fn run<P: Peer, E: Engine>(
    peer: &mut P,
    engine: &mut E,
    buffer: &mut [u8],
    out: &mut [u8],
) -> Ended
    requires buffer { LONGEST_ENDED ≤ length buffer.old }
    requires room { E.most engine.old ≤ length out.old }
    ensures { Ran E.after E.answer engine.old P.talk engine.new peer.old peer.new result }
{
    let mut hand = Hand::new(buffer);
    for _ in 0..u64::MAX {
        match pass(peer, engine, &mut hand, out) {
            Passed::On => {}
            Passed::Over => return finish(peer, engine, &hand, out, Ended::Input),
            Passed::Cut(why) => return finish(peer, engine, &hand, out, Ended::ReadFailed(why)),
            Passed::Lost(why) => return Ended::WriteFailed(why),
        }
    }
    Ended::TooLong
}
