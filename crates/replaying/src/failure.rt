//! Why a list is not made again.

ghost use Rattle.std.specs.Prelude.{◌≡◌, [], ◌∷◌, ◌++◌, OnOk, IfErr};
ghost use Rattle.replaying.specs.declared.failure.Failure.TheVariants.{Memory};

use std::alloc::AllocError;
use std::fmt::{Display, Formatter};
use std::{fmt, io};

/// Why a list is not made again.
#[derive(Debug, Drop)]
pub enum Failure {
    /// Its words are those of no list.
    Damaged,
    /// An open is refused, with this number.
    Refused(u32),
    /// There is not enough memory.
    Memory,
    /// A read or a write failed.
    Stream(io::Error),
}

impl Display for Failure {
    fn fmt<W: fmt::Write>(&self, f: &mut Formatter<W>) -> fmt::Result {
        match self {
            Failure::Damaged => f.write_str("these are the words of no list of calls"),
            Failure::Refused(number) => write!(f, "the list's open is refused with {number}"),
            Failure::Memory => f.write_str("there is not enough memory"),
            Failure::Stream(error) => write!(f, "a read or a write failed: {error}"),
        }
    }
}

impl From<AllocError> for Failure {
    ghost use Rattle.std.specs.Prelude.{◌≡◌};
    ghost use Rattle.replaying.specs.declared.failure.Failure.TheVariants.{Memory};

    ghost from_gives = { λ error failure. failure ≡ Memory };

    fn from(_: AllocError) -> Failure {
        Failure::Memory
    }
}

impl From<io::Error> for Failure {
    ghost use Rattle.std.specs.Prelude.{◌≡◌};
    ghost use Rattle.replaying.specs.declared.failure.Failure.TheVariants.{Stream};

    ghost from_gives = { λ error failure. failure ≡ Stream error };

    fn from(error: io::Error) -> Failure {
        Failure::Stream(error)
    }
}

/// Puts one more behind the others.
pub fn push<T: Drop>(all: &mut Vec<T>, one: T) -> Result<(), Failure>
    ensures pushed { OnOk result (all.new.items ≡ all.old.items ++ one ∷ []) }
    ensures failed { IfErr result (λ f. f ≡ Memory) }
{
    match all.push(one) {
        Ok(()) => Ok(()),
        Err(_) => Err(Failure::Memory),
    }
}
