//! A state with one certificate less.

ghost use Rattle.std.specs.Prelude.{List, ℕ, ◌<◌, ◌≤◌};
ghost use Rattle.state.specs.Formed.{Formed};
ghost use Rattle.state.specs.declared.State.{State};
ghost use Rattle.store.specs.Writes.{clear_held};

/// A well-formed state without one of its certificates is well formed, but that a serial port may have read past the listing's end.
pub fn formed_without()
    ensures { (s : State) (t : List ℕ) → Formed s t → (a q : ℕ) → a < 16 → 0 < q
        → q ≤ s.settings.ceiling → Formed s (clear_held t a q) }
{}
