// Someone who sends records and gets their answers.
ghost use Rattle.std.specs.Prelude.{◌≢◌, List, [], ◌∷◌, ◌++◌, ◌≤◌, ◌<◌, length, IfOk, IfErr};
ghost use Rattle.std.specs.Result.{result_err};
ghost use Rattle.std.specs.IoError.{error_kind};
ghost use Rattle.stream.specs.Talk.{Event};
ghost use Rattle.stream.specs.Peer.{read_gave, write_took, flush_did, HandedOut};

use std::io;
use std::io::ErrorKind;

/// Someone who sends records and gets their answers. What goes on is told as steps in their order.
pub trait Peer {
    // These steps, in this order, led from one to the other.
    ghost talk: { Self → List Event → Self → Type 0 };

    /// Reads bytes to the front of the buffer. Gives how many came, 0 at the end of the input; or why the read failed, which is never that a signal broke in.
    fn read(&mut self, buffer: &mut [u8]) -> io::Result<usize>
        requires { 0 < length buffer.old }
        ensures count { IfOk result (λ n. n ≤ length buffer.new) }
        ensures retried { IfErr result (λ why. error_kind why ≢ ErrorKind.Interrupted) }
        ensures talks { talk self.old (read_gave result buffer.new ∷ []) self.new };

    /// Writes a first part of the bytes. Gives how many went out, one at least; or why the write failed, which is never that a signal broke in.
    fn write(&mut self, bytes: &[u8]) -> io::Result<usize>
        requires { 0 < length bytes.now }
        ensures count { IfOk result (λ n. (0 < n) × (n ≤ length bytes.now)) }
        ensures retried { IfErr result (λ why. error_kind why ≢ ErrorKind.Interrupted) }
        ensures talks { talk self.old (write_took result bytes.now ∷ []) self.new };

    /// Sends on what waits in a buffer. Gives why that failed, where it did.
    fn flush(&mut self) -> io::Result<()>
        ensures talks { talk self.old (flush_did (result_err result) ∷ []) self.new };

    ghost silent: { (p : Self) → talk p [] p };

    ghost joined: { (p q r : Self) (l m : List Event) → talk p l q → talk q m r
        → talk p (l ++ m) r };
}

/// Writes all of the bytes, in as many writes as it takes, and flushes. Gives why one of these failed, where one did, and then no other follows.
pub(crate) fn hand_out<P: Peer>(peer: &mut P, bytes: &[u8]) -> io::Result<()>
    ensures { HandedOut P.talk peer.old bytes.now (result_err result) peer.new }
{
    let mut at = 0;
    while at < bytes.len() {
        match peer.write(&bytes[at..]) {
            Ok(n) => at += n,
            Err(why) => return Err(why),
        }
    }
    peer.flush()
}
