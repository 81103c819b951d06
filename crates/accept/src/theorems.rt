//! A later copy of a held certificate.

ghost use Rattle.std.specs.Prelude.{List, false, true, ℕ, ◌<◌, ◌≡◌, ◌≤◌};
ghost use Rattle.accept.specs.Accept.{accept_refusal, accept_table};
ghost use Rattle.base.specs.Sets.{contains};
ghost use Rattle.state.specs.WellFormed.{well_formed};
ghost use Rattle.state.specs.declared.State.{State};
ghost use Rattle.store.specs.Table.{content_at, held_at};
ghost use Rattle.terms.specs.Proposals.{content_of};
ghost use Rattle.terms.specs.declared.Certificate.{Certificate};

/// In a well-formed state a later copy of a held certificate, with whatever endorsers, its author not among them, is refused with 16 and changes nothing.
pub fn copy_still()
    ensures { (s : State) (t : List ℕ) → well_formed s t ≡ true → (c : Certificate) (a r : ℕ)
        → 0 < r → r ≤ s.settings.ceiling → held_at t a r ≡ true
        → content_of c.proposal ≡ content_at t a r → contains c.endorsers a ≡ false
        → (accept_refusal s t c ≡ 16) × (accept_table s t c ≡ t) }
{}
