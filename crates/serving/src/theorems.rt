//! The ceilings that the runner's table serves.

ghost use Rattle.std.specs.Prelude.{List, length, ℕ, ◌≡◌};
ghost use Rattle.serving.specs.Ceilings.{ServesTo64};
ghost use Rattle.serving.specs.Lengths.{table_length};
ghost use Rattle.terms.specs.declared.Member.{Member};
ghost use Rattle.terms.specs.declared.sheet.Settings.{Settings};

/// The runner's table serves the ceilings up to 64 and no other: an open answers 1 exactly where, after checks 4, 2 and 3, the ceiling is above 64.
pub fn serves_to_64()
    ensures { (t : List ℕ) → length t ≡ table_length → (own : Member) (S : Settings)
        → ServesTo64 t own S }
{}
