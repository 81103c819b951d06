//! What a draw takes from the queues.

ghost use Rattle.std.specs.Prelude.{List, true, ℕ, ◌≡◌, ◌≢◌};
ghost use Rattle.draw.specs.Draw.{draw_refusal, drawn_body, draws};
ghost use Rattle.queues.specs.Queues.{transactions_in};
ghost use Rattle.state.specs.WellFormed.{well_formed};
ghost use Rattle.state.specs.declared.State.{State};
ghost use Rattle.terms.specs.Proposals.{transactions_of};

/// What is drawn, in its order, is the transaction list of the proposal.
#[tactic(auto, using(crate::proofs::ClaimLaws::drawn_seen))]
pub fn drawn_seen()
    ensures { (s : State) (t : List ℕ) (v : ℕ) → well_formed s t ≡ true
        → transactions_of (drawn_body s t v) ≡ transactions_in (draws s t) }
{}

/// A draw is never refused with 6: what is drawn is in range and within the allowance.
#[tactic(auto, using(crate::proofs::ClaimLaws::never_six))]
pub fn never_six()
    ensures { (s : State) (t : List ℕ) (v : ℕ) → well_formed s t ≡ true → draw_refusal s t v ≢ 6 }
{}
