//! Why calls are refused: a case for each check.
//!
//! `Refusal` has a case for each number of docs/RULES.md, "Calls", and `number_of` tells it (specs/Refusals): a result that is refused with n is refused with no other number, and no accepted one has a number.
#![tactic(auto)]

ghost use Rattle.std.specs.Prelude.{◌≡◌};
ghost use Rattle.refusals.specs.Refusals.{number_of};

/// Why a call or a read is refused. The discriminant is the number, 1 to 31; a call has the number of the first of its checks that fails.
#[derive(Debug, Clone, Copy, PartialEq, Eq)]
pub enum Refusal {
    /// The state is not well formed, as before an open, the lent table is too short, or words handed in mean nothing.
    Malformed = 1,
    /// A setting is out of its range.
    SettingRange = 2,
    /// No starting weight is positive.
    NoWeight = 3,
    /// A member is above 15.
    MemberRange = 4,
    /// A round is 0 or above the ceiling.
    RoundRange = 5,
    /// A transaction or an amount is out of range, or there are more transactions than the allowance.
    TransactionsRange = 6,
    /// The previous set is empty above round 1, or not empty in it.
    PreviousEmpty = 7,
    /// The committee of a round is not known yet.
    CommitteeUnknown = 8,
    /// A member, or a signer, is outside the committee.
    Outside = 9,
    /// The place of a round and a member is taken: a certificate is held there, it is endorsed, or there is a proposal for it.
    PlaceTaken = 10,
    /// A certificate that the previous set names is not held.
    PreviousMissing = 11,
    /// The previous set is no quorum of the round before.
    PreviousQuorum = 12,
    /// The signers weigh less than a quorum.
    SignersShort = 13,
    /// The author is among its endorsers, or one would endorse one's own proposal.
    SignedTwice = 14,
    /// There is no proposal in the present round.
    NoProposal = 15,
    /// The same certificate is held, whoever endorsed it.
    SameHeld = 16,
    /// Another certificate is held at that place.
    OtherHeld = 17,
    /// The present round is the ceiling: there is none above it.
    AtCeiling = 18,
    /// The present round is even, or 1: no commit is made in it.
    NoCommitRound = 19,
    /// The newest block is of the round before, or of a later one.
    BlockMade = 20,
    /// The round before has no anchor.
    NoAnchor = 21,
    /// The votes for the anchor weigh no more than the fault bound.
    VotesShort = 22,
    /// There is no such certificate, or no block of that number.
    NoneThere = 23,
    /// A record cannot be read.
    Unreadable = 24,
    /// A row is over its length, or a lent list is too short.
    LengthRange = 25,
    /// A guest, a caller or a port is above 7.
    GuestRange = 26,
    /// Eight transactions wait in that queue already.
    QueueFull = 27,
    /// The authors of the certificates held in the present round are no quorum of it.
    ThinRound = 28,
    /// The caller lacks the right for this call.
    NoRight = 29,
    /// The committee is empty: its total weight is 0.
    EmptyCommittee = 30,
    /// An offset of a port's registers is above 7.
    OffsetRange = 31,
}

impl Refusal {
    /// Its number, 1 to 31, as the table of calls has it.
    pub fn number(self) -> u32
        ensures { result ≡ number_of self }
    {
        self as u32
    }
}
