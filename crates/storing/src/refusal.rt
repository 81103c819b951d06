//! Why words are not stored or loaded: a case for each check.

ghost use Rattle.std.specs.Prelude.{◌≡◌};
ghost use Rattle.storing.specs.Refusals.{number_of};

/// Why words are not stored or loaded. The discriminant is the number, 101 to 107; no call is refused with one of them.
#[derive(Debug, Clone, Copy, PartialEq, Eq)]
pub enum StoringRefusal {
    /// Words that cannot be read, of a state, a proposal or a certificate; or too few of them: a state is shorter than its layout, or a table than the ceiling says.
    Unreadable = 101,
    /// The lent stretch is too short for what is written.
    NoRoom = 102,
    /// Another mark: this is no stored member.
    OtherMark = 103,
    /// Stored in another format.
    OtherFormat = 104,
    /// Torn: not as long as its ceiling says, or with another digest.
    Torn = 105,
    /// Stored by another member.
    OtherMember = 106,
    /// Stored in another run.
    OtherRun = 107,
}

impl StoringRefusal {
    /// Its number, 101 to 107.
    pub fn number(self) -> u32
        ensures { result ≡ number_of self }
    {
        self as u32
    }
}
