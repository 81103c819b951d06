//! Lengths in words of what a host lends, in one place.

/// A state.
pub const STATE: usize = 39;
/// A transaction: kind, number, amount.
pub(crate) const TRANSACTION: usize = 3;
/// A body: previous set, count, four transactions.
pub(crate) const BODY: usize = 14;
/// A proposal: author, round, body.
pub const PROPOSAL: usize = 16;
/// A certificate: its proposal, then its endorsers.
pub const CERTIFICATE: usize = 17;
/// A held certificate as it is read: the certificate, then the number of its block.
pub const HELD: usize = 18;
/// A sheet: twenty settings of two words.
pub(crate) const SHEET: usize = 40;
/// A committee: sixteen weights.
pub const COMMITTEE: usize = 16;
/// A bond's effect: sixteen shares before, sixteen after, the largest difference.
pub const EFFECT: usize = 33;
