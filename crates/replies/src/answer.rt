//! The line of an answer, put at the front of a buffer.

ghost use Rattle.std.specs.Prelude.{◌≤◌, length};
ghost use Rattle.base.specs.Puts.{Puts};
ghost use Rattle.replies.specs.Answers.{answer_line, committed_line};

use listing::lines;
use refusals::Refusal;

/// Puts the line of a member's call: `ok`, or `refused` and the number. Gives how many bytes it has, at most 20.
pub fn put_answer(answer: Result<(), Refusal>, out: &mut [u8]) -> usize
    requires { 20 ≤ length out.old }
    ensures { Puts out.old out.new 0 result (answer_line answer) 20 }
{
    match answer {
        Ok(()) => lines::put_ok(out, 0),
        Err(refusal) => lines::put_refused(out, 0, refusal.number()),
    }
}

/// Puts the line of a commit: `ok` and how many blocks were added, or `refused` and the number. Gives how many bytes it has, at most 20.
pub fn put_committed(answer: Result<u32, Refusal>, out: &mut [u8]) -> usize
    requires { 20 ≤ length out.old }
    ensures { Puts out.old out.new 0 result (committed_line answer) 20 }
{
    match answer {
        Ok(added) => lines::put_count(out, 0, added),
        Err(refusal) => lines::put_refused(out, 0, refusal.number()),
    }
}
