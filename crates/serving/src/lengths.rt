//! The runner's memory, in one place.

use store::lengths::ROW;

/// The words of the cache: the committees of the rounds from 0 up to 64, sixteen weights each, after a word for the first round.
pub const CACHE: usize = 1 + 16 * (64 + 1);
/// The words of the table, of ceiling 64.
pub const TABLE: usize = ROW * (64 + 1);
/// The bytes of the input buffer.
pub const INPUT: usize = 65536;
/// The bytes of the output buffer.
pub const OUTPUT: usize = 262144;
