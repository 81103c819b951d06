//! Numbers in records and lines, and the state before an open.

ghost use Rattle.std.specs.Prelude.{List, Some, false, ℕ, ◌≡◌, ◌≤◌};
ghost use Rattle.listing.specs.Lines.{decimal};
ghost use Rattle.open.specs.Open.{closed_state};
ghost use Rattle.records.specs.Numbers.{number_in};
ghost use Rattle.state.specs.WellFormed.{well_formed};

/// What is written of a number, decimal and without leading zeros, is read as that number.
pub fn numbers_read_back()
    ensures { (n : ℕ) → n ≤ 4294967295 → number_in (decimal n) ≡ Some n }
{}

/// The state before an open is not well formed, whatever the table: so calls are refused with 1.
pub fn closed_is_malformed()
    ensures { (t : List ℕ) → well_formed closed_state t ≡ false }
{}
