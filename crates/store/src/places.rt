// Where it stands in the table, in words (docs/TABLES.md).

ghost use Rattle.std.specs.Prelude.{◌≡◌};
ghost use Rattle.store.specs.Table.{row_start, record_start, used_length};

use crate::lengths::{HEAD, PORT, RECORD, ROW};
use terms::{Member, Round};

/// Of a row: the endorsed set, behind the held set.
pub const ROW_ENDORSED: usize = 1;
/// Of row k: the round of block k.
pub const ROW_BLOCK: usize = 2;

/// Of row 0: the port of guest 0.
pub const FIRST_PORT: usize = HEAD;
/// Of row 0: the queue of guest 0, behind its port.
pub const FIRST_QUEUE: usize = FIRST_PORT + PORT;

/// Of a record: the previous set.
pub const RECORD_PREVIOUS: u32 = 0;
/// Of a record: how many transactions it has.
pub const RECORD_COUNT: u32 = 1;
/// Of a record: the commit mark, the number of its block, 0 for none.
pub const RECORD_BLOCK: u32 = 2;
/// Of a record: the endorsers that it was stored with.
pub const RECORD_ENDORSERS: u32 = 3;
/// Of a record: its transactions.
pub const RECORD_TRANSACTIONS: u32 = 4;

/// Where the row of `round` starts.
pub fn row_start(round: Round) -> usize
    ensures { result ≡ row_start round }
{
    round.0 as usize * ROW
}

/// Where the record of `author` and `round` starts.
pub fn record_start(author: Member, round: Round) -> usize
    ensures { result ≡ record_start author.0 round }
{
    row_start(round) + author.0 as usize * RECORD + HEAD
}

/// How many words a state of this ceiling uses: the rows from 0 up to it.
pub fn used_length(ceiling: Round) -> usize
    ensures { result ≡ used_length ceiling }
{
    row_start(ceiling) + ROW
}
