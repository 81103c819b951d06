//! A run of the engine: records served as a reader gives them, and their answers handed to a writer.
//!
//! What is written is what is answered to what was read (`output`, specs/Streams), whatever reader and writer they are. docs/RULES.md, "Records".
#![tactic(auto)]

pub mod keeper;
pub mod lengths;
pub mod theorems;

ghost use Rattle.std.specs.Prelude.{◌≡◌, ◌+◌, ◌*◌, ◌≤◌, length, IfSome, IsOk};
ghost use Rattle.std.specs.Io.KnownBytes.{Appends};
ghost use Rattle.engine.specs.Engine.{Engine};
ghost use Rattle.framing.specs.declared.TheConstants.{LONGEST_ENDED};
ghost use Rattle.open.specs.Open.{closed_state};
ghost use Rattle.replies.specs.Records.{engine_of};
ghost use Rattle.serving.specs.Lengths.{table_length};
ghost use Rattle.serving.specs.Streams.{engine_after, lines_after, output};
ghost use Rattle.stream.specs.Ended.{Tells};
ghost use Rattle.stream.specs.Talk.{Ran};
ghost use Rattle.stream.specs.Known.{Moved, AddsPart};
ghost use Rattle.stream.specs.declared.ended.Ended.{Ended};

use crate::keeper::Keeper;
use std::io;
use std::io::{Read, Write};
use stream::tied::Tied;

/// A member that is not open yet, served to the end of the input, over any reader and any writer: what the runner is. The memory is lent: the committees that are cached and the table of the member, and a buffer each for bytes that came and for lines that go out. Gives what a program ends with: all is well where the input came to its end, and then the lines for all of it were handed out; a read or a write that failed is told as it failed.
pub fn serve_streams<R: Read, W: Write>(
    streams: &mut Tied<R, W>,
    cache: &mut [u64],
    table: &mut [u32],
    buffer: &mut [u8],
    out: &mut [u8],
) -> io::Result<()>
    requires table { length table.old ≡ table_length }
    requires buffer { LONGEST_ENDED ≤ length buffer.old }
    requires room { table_length * 9 + 20 ≤ length out.old }
    ensures ran { (left : Engine) × (ended : Ended)
        × Ran engine_after lines_after (engine_of closed_state table.old)
        (λ p l q. Moved (R.remaining p.input) (R.remaining q.input) (W.contents p.output)
        (W.contents q.output) l)
        left streams.old streams.new ended × Tells ended result }
    ensures whole { IsOk result → IfSome (R.remaining streams.old.input)
        (λ bytes. Appends (W.contents streams.old.output) (W.contents streams.new.output)
        (output (engine_of closed_state table.old) bytes)) }
    ensures part { AddsPart engine_after lines_after (engine_of closed_state table.old)
        (R.remaining streams.old.input) (R.remaining streams.new.input)
        (W.contents streams.old.output) (W.contents streams.new.output) }
{
    let mut keeper = Keeper::new(cache, table);
    streams.run(&mut keeper, buffer, out)
}
