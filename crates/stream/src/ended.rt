// How a run ended.
ghost use Rattle.std.specs.Prelude.{◌≡◌, IsOk};
ghost use Rattle.stream.specs.Ended.{Tells};

use std::io;
use std::io::ErrorKind;

/// How a run ended.
#[derive(Debug, Clone, Copy)]
pub enum Ended {
    /// The input came to its end, and every answer went out.
    Input,
    /// A read failed, for this reason; every answer to what came before went out.
    ReadFailed(io::Error),
    /// A write failed, for this reason: some answers are lost.
    WriteFailed(io::Error),
    /// More bytes came and went than can be counted.
    TooLong,
}

impl Ended {
    /// What a program ends with: all is well only where the input came to its end and every answer went out. A read or a write that failed is told as it failed.
    pub fn told(self) -> io::Result<()>
        ensures tells { Tells self result }
        ensures only { IsOk result → self ≡ Ended.Input }
    {
        match self {
            Ended::Input => Ok(()),
            Ended::ReadFailed(why) => Err(why),
            Ended::WriteFailed(why) => Err(why),
            Ended::TooLong => Err(io::Error::from(ErrorKind::Other)),
        }
    }
}
