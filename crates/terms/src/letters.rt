// The letters by which records and listings name the kinds of transactions (docs/RULES.md, "Records").

/// A bond.
pub const BOND: u8 = b'B';
/// An unbond.
pub const UNBOND: u8 = b'U';
/// An entry.
pub const ENTRY: u8 = b'E';
