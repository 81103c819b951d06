//! The words of a state, a body, a proposal and a bond's effect, by name (docs/TABLES.md).

/// Of a state: own number.
pub const STATE_OWN: usize = 0;
/// Of a state: lookback.
pub const STATE_LOOKBACK: usize = 1;
/// Of a state: ceiling.
pub const STATE_CEILING: usize = 2;
/// Of a state: allowance.
pub const STATE_ALLOWANCE: usize = 3;
/// Of a state: the first of sixteen starting weights.
pub const STATE_WEIGHTS: usize = 4;
/// Of a state: present round.
pub const STATE_ROUND: usize = 20;
/// Of a state: is there a proposal, 0 or 1.
pub const STATE_PROPOSED: usize = 21;
/// Of a state: number of blocks.
pub const STATE_BLOCKS: usize = 22;
/// Of a state: the body of the proposal.
pub const STATE_BODY: usize = 23;
/// Of a state: margin.
pub const STATE_MARGIN: usize = 37;
/// Of a state: rights of callers.
pub const STATE_RIGHTS: usize = 38;

/// Of a body: how many transactions it has, behind its previous set.
pub const BODY_COUNT: usize = 1;
/// Of a body: the first of its transactions.
pub const BODY_TRANSACTIONS: usize = 2;

/// Of a proposal: its author.
pub const PROPOSAL_AUTHOR: usize = 0;
/// Of a proposal: its round.
pub const PROPOSAL_ROUND: usize = 1;
/// Of a proposal: its body.
pub const PROPOSAL_BODY: usize = 2;

/// Of an effect: the first of sixteen shares before the bond.
pub const EFFECT_BEFORE: usize = 0;
/// Of an effect: the first of sixteen shares after it.
pub const EFFECT_AFTER: usize = 16;
/// Of an effect: the largest difference.
pub const EFFECT_LARGEST: usize = 32;
