//! The first blocks of the chain that a table shows, with the settings that they change.

ghost use Rattle.std.specs.Prelude.{ℕ, ◌<◌, ◌^◌, get_or};
ghost use Rattle.chain_committees.specs.ChainInTable.{ChainInTable};

use committee::committees::Committee;
use terms::sheet::Settings;

/// The first blocks of a table: their rounds are even, rise, and lie below the ceiling of the settings.
#[derive(Debug, Clone, Copy)]
pub struct Chain<'a> {
    /// The table of certificates and blocks.
    pub table: &'a [u32],
    /// The settings: the starting weights, lookback, the ceiling and the margin.
    pub settings: &'a Settings,
    /// How many blocks of the table are the chain's.
    pub blocks: u32,
    ghost words: { (i : ℕ) → get_or table.now i 0 < 2 ^ 32 },
    ghost told: { ChainInTable settings.now table.now blocks },
}

impl<'a> Chain<'a> {
    ghost use Rattle.std.specs.Prelude.{◌≡◌};

    /// The first `blocks` blocks of a table.
    pub fn new(table: &'a [u32], settings: &'a Settings, blocks: u32) -> Chain<'a>
        requires { ChainInTable settings.now table.now blocks }
        ensures table { result.table.now ≡ table.now }
        ensures settings { result.settings.now ≡ settings.now }
        ensures blocks { result.blocks ≡ blocks }
    {
        Chain {
            table,
            settings,
            blocks,
        }
    }

    /// The starting committee, which no block has changed.
    pub fn starting(&self) -> Committee
        ensures weights { result.weights ≡ self.now.settings.now.weights }
        ensures margin { result.margin ≡ self.now.settings.now.margin }
    {
        Committee {
            weights: self.settings.weights,
            margin: self.settings.margin,
        }
    }
}
