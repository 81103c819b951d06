// Any reader with any writer.
ghost use Rattle.std.specs.Prelude.{◌≡◌, ◌≤◌, length, IfSome, IsOk};
ghost use Rattle.std.specs.Io.KnownBytes.{Appends};
ghost use Rattle.framing.specs.declared.TheConstants.{LONGEST_ENDED};
ghost use Rattle.framing.specs.Streams.{readables};
ghost use Rattle.stream.specs.Answers.{after_all, answers};
ghost use Rattle.stream.specs.Ended.{Tells};
ghost use Rattle.stream.specs.Known.{Moved, AddsPart};
ghost use Rattle.stream.specs.Joining.{nothing_moved, joined};
ghost use Rattle.stream.specs.Talk.{Ran};

use crate::Engine;
use crate::ended::Ended;
use crate::peer::Peer;
use crate::run::run;
use std::io;
use std::io::{ErrorKind, Read, Write};

/// A reader and a writer, as one peer.
#[derive(Drop)]
pub struct Tied<R, W> {
    /// Where records come from.
    pub input: R,
    /// Where their answers go.
    pub output: W,
}

impl<R: Read, W: Write> Peer for Tied<R, W> {
    ghost talk = { λ p l q.
        Moved (R.remaining p.input) (R.remaining q.input)
        (W.contents p.output) (W.contents q.output) l };

    ghost silent = { λ p. nothing_moved _ _ };

    ghost joined = { λ p q r l m. joined l m _ _ _ _ _ _ };

    // Tries again where a signal broke in.
    fn read(&mut self, buffer: &mut [u8]) -> io::Result<usize> {
        for _ in 0..u64::MAX {
            match self.input.read(buffer) {
                Ok(n) => return Ok(n),
                Err(why) => {
                    if why.kind() != ErrorKind::Interrupted {
                        return Err(why);
                    }
                }
            }
        }
        Err(io::Error::from(ErrorKind::Other))
    }

    // Tries again where a signal broke in. A writer that takes nothing has failed.
    fn write(&mut self, bytes: &[u8]) -> io::Result<usize> {
        for _ in 0..u64::MAX {
            match self.output.write(bytes) {
                Ok(0) => return Err(io::Error::from(ErrorKind::WriteZero)),
                Ok(n) => return Ok(n),
                Err(why) => {
                    if why.kind() != ErrorKind::Interrupted {
                        return Err(why);
                    }
                }
            }
        }
        Err(io::Error::from(ErrorKind::Other))
    }

    fn flush(&mut self) -> io::Result<()> {
        self.output.flush()
    }
}

impl<R: Read, W: Write> Tied<R, W> {
    /// Serves all records that the reader gives, on an engine, and hands the answers to the writer before it reads more. Gives what a program ends with: all is well where the input came to its end, and then the writer got the answers to the whole of it. Its contract is in the bytes of reader and writer themselves, so that what a peer's talk is, above, need not be believed.
    pub fn run<E: Engine>(
        &mut self,
        engine: &mut E,
        buffer: &mut [u8],
        out: &mut [u8],
    ) -> io::Result<()>
        requires buffer { LONGEST_ENDED ≤ length buffer.old }
        requires room { E.most engine.old ≤ length out.old }
        ensures ran { (ended : Ended) × Ran E.after E.answer engine.old
            (λ p l q. Moved (R.remaining p.input) (R.remaining q.input) (W.contents p.output)
            (W.contents q.output) l)
            engine.new self.old self.new ended × Tells ended result }
        ensures whole { IsOk result → IfSome (R.remaining self.old.input)
            (λ bytes. Appends (W.contents self.old.output) (W.contents self.new.output)
            (answers E.after E.answer engine.old (readables bytes))) }
        ensures state { IsOk result → IfSome (R.remaining self.old.input)
            (λ bytes. engine.new ≡ after_all E.after E.answer engine.old (readables bytes)) }
        ensures part { AddsPart E.after E.answer engine.old (R.remaining self.old.input)
            (R.remaining self.new.input)
            (W.contents self.old.output) (W.contents self.new.output) }
    {
        run(self, engine, buffer, out).told()
    }
}
