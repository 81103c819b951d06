// The sheet of settings: what an integrator fills in, its defaults and its ranges (docs/RULES.md, "Terms" and "The sheet").

ghost use Rattle.std.specs.Prelude.{◌≡◌, ◌<◌, nat_lt};
ghost use Rattle.base.specs.Folds.{any_to};
ghost use Rattle.terms.specs.Sheets.{blank_sheet, value_or, blank_weight, weight_at, starting_weights, filled};
ghost use Rattle.terms.specs.Ranges.{weight_in, not_within, out_of_range, weightless};

use crate::{Member, Round};

/// What the sheet says of a setting: nothing, or a number.
#[derive(Debug, Clone, Copy, PartialEq, Eq)]
pub enum Setting {
    /// The default is taken.
    Blank,
    /// This number is taken, also where it is 0.
    Written(u32),
}

/// What callers 0 to 7 may do, a bit each: bit 8 r + c is caller c's right r, where 0 is propose, 1 sign, 2 drive and 3 read (docs/RULES.md, "Rights").
#[derive(Debug, Clone, Copy)]
pub struct Rights(pub u32);

/// The settings as an integrator writes them, and the rights that the host fixes beside them.
#[derive(Debug, Clone, Copy)]
pub struct Sheet {
    pub lookback: Setting,
    pub ceiling: Setting,
    pub allowance: Setting,
    /// By member.
    pub weights: [Setting; 16],
    pub margin: Setting,
    pub rights: Rights,
}

/// A member's weight, 0 for one that is not in the committee.
#[derive(Debug, Clone, Copy, PartialEq, Eq, PartialOrd, Ord)]
pub struct Weight(pub u64);

/// The filled settings: each as it is written, or its default.
#[derive(Debug, Clone, Copy)]
pub struct Settings {
    pub lookback: u32,
    /// The last round.
    pub ceiling: Round,
    /// The most transactions of a proposal.
    pub allowance: u32,
    /// The starting weights, by member.
    pub weights: [Weight; 16],
    /// What a total less 1 is divided by for its fault bound.
    pub margin: u32,
}

impl Sheet {
    /// The lookback where it is blank.
    pub(crate) const LOOKBACK: u32 = 20;

    /// The least lookback.
    pub(crate) const LOOKBACK_MIN: u32 = 1;

    /// The greatest lookback.
    pub(crate) const LOOKBACK_MAX: u32 = 1000;

    /// The ceiling where it is blank.
    pub(crate) const CEILING: u32 = 1024;

    /// The least ceiling.
    pub(crate) const CEILING_MIN: u32 = 3;

    /// The greatest ceiling.
    pub(crate) const CEILING_MAX: u32 = 1024;

    /// The allowance where it is blank.
    pub(crate) const ALLOWANCE: u32 = 4;

    /// The least allowance.
    pub(crate) const ALLOWANCE_MIN: u32 = 0;

    /// The greatest allowance.
    pub(crate) const ALLOWANCE_MAX: u32 = 4;

    /// The weight, where it is blank, of each member below `FIRST_MEMBERS`.
    pub(crate) const WEIGHT_FIRST: u32 = 1;

    /// The weight, where it is blank, of the other members.
    pub(crate) const WEIGHT_OTHER: u32 = 0;

    /// How many members weigh something where nothing is written: 0 to 3.
    pub(crate) const FIRST_MEMBERS: u32 = 4;

    /// The least weight.
    pub(crate) const WEIGHT_MIN: u32 = 0;

    /// The greatest weight.
    pub(crate) const WEIGHT_MAX: u32 = 1000000;

    /// The margin where it is blank.
    pub(crate) const MARGIN: u32 = 3;

    /// The least margin.
    pub(crate) const MARGIN_MIN: u32 = 3;

    /// The greatest margin.
    pub(crate) const MARGIN_MAX: u32 = 5;

    /// The sheet with nothing written, and no rights.
    pub fn blank() -> Sheet
        ensures { result ≡ blank_sheet }
    {
        Sheet {
            lookback: Setting::Blank,
            ceiling: Setting::Blank,
            allowance: Setting::Blank,
            weights: [Setting::Blank; 16],
            margin: Setting::Blank,
            rights: Rights(0),
        }
    }
}

// The number of a setting, `otherwise` where it is blank.
fn value_or(setting: Setting, otherwise: u32) -> u32
    ensures { result ≡ value_or setting otherwise }
{
    match setting {
        Setting::Blank => otherwise,
        Setting::Written(number) => number,
    }
}

// A member's weight where it is blank.
#[tactic(auto, unfolding(crate::specs::Sheets::blank_weight))]
fn blank_weight(member: Member) -> u32
    ensures { result ≡ blank_weight member.0 }
{
    if member.0 < Sheet::FIRST_MEMBERS {
        Sheet::WEIGHT_FIRST
    } else {
        Sheet::WEIGHT_OTHER
    }
}

// A member's starting weight.
#[tactic(auto, unfolding(crate::specs::Sheets::weight_at))]
fn weight_at(weights: &[Setting; 16], member: Member) -> Weight
    requires { member.0 < 16 }
    ensures { result.0 ≡ weight_at weights.now member.0 }
{
    let number = value_or(weights[member.0 as usize], blank_weight(member));
    Weight(number as u64)
}

// The sixteen starting weights.
fn weights(sheet: &[Setting; 16]) -> [Weight; 16]
    ensures { result ≡ starting_weights sheet.now }
{
    std::array::from_fn(|i| weight_at(sheet, Member(i as u32)))
}

/// The settings that a sheet is filled to: each blank by its default.
#[tactic(auto, unfolding(crate::specs::Sheets::filled))]
pub fn fill(sheet: Sheet) -> Settings
    ensures { result ≡ filled sheet }
{
    Settings {
        lookback: value_or(sheet.lookback, Sheet::LOOKBACK),
        ceiling: Round(value_or(sheet.ceiling, Sheet::CEILING)),
        allowance: value_or(sheet.allowance, Sheet::ALLOWANCE),
        weights: weights(&sheet.weights),
        margin: value_or(sheet.margin, Sheet::MARGIN),
    }
}

// Is the number below its least or above its greatest value?
#[tactic(auto, unfolding(crate::specs::Ranges::not_within))]
fn is_outside(number: u64, min: u32, max: u32) -> bool
    ensures { result ≡ not_within number min max }
{
    number < min as u64 || (max as u64) < number
}

// Is one of the weights out of range?
#[tactic(auto, unfolding(base::specs::Folds::any_to))]
fn has_outside(weights: &[Weight; 16]) -> bool
    ensures { result ≡ any_to (λ i. not_within (weight_in weights.now i) 0 1000000) 16 }
{
    (0..16usize).any(|i| is_outside(weights[i].0, Sheet::WEIGHT_MIN, Sheet::WEIGHT_MAX))
}

// Is one of the weights positive?
#[tactic(auto, unfolding(base::specs::Folds::any_to))]
fn has_weight(weights: &[Weight; 16]) -> bool
    ensures { result ≡ any_to (λ i. nat_lt 0 (weight_in weights.now i)) 16 }
{
    (0..16usize).any(|i| 0 < weights[i].0)
}

impl Settings {
    /// Check 2: is a setting out of range?
    #[tactic(auto, unfolding(crate::specs::Ranges::out_of_range))]
    pub fn is_out_of_range(&self) -> bool
        ensures { result ≡ out_of_range self.now }
    {
        is_outside(
            self.lookback as u64,
            Sheet::LOOKBACK_MIN,
            Sheet::LOOKBACK_MAX,
        ) || is_outside(
            self.ceiling.0 as u64,
            Sheet::CEILING_MIN,
            Sheet::CEILING_MAX,
        ) || is_outside(
            self.allowance as u64,
            Sheet::ALLOWANCE_MIN,
            Sheet::ALLOWANCE_MAX,
        ) || has_outside(&self.weights)
            || is_outside(self.margin as u64, Sheet::MARGIN_MIN, Sheet::MARGIN_MAX)
    }

    /// Check 3: is no starting weight positive?
    #[tactic(auto, unfolding(crate::specs::Ranges::weightless))]
    pub fn is_weightless(&self) -> bool
        ensures { result ≡ weightless self.now }
    {
        !has_weight(&self.weights)
    }
}
