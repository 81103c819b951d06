//! A preview tells what a commit would do.

ghost use Rattle.std.specs.Prelude.{List, length, ℕ, ◌*◌, ◌/◌, ◌≡◌, ◌≤◌};
ghost use Rattle.commit.specs.Commit.{commit_refusal, ruled_view};
ghost use Rattle.preview.specs.Claims.{ListsBeyond};
ghost use Rattle.preview.specs.Preview.{preview_entries, preview_refusal};
ghost use Rattle.state.specs.View.{view};
ghost use Rattle.state.specs.declared.State.{State};

/// Where the list is long enough, a preview is refused as a commit would be, with the same number.
#[tactic(auto, using(crate::proofs::ClaimLaws::refused_as_commit))]
pub fn refused_as_commit()
    ensures { (s : State) (t : List ℕ) (words : ℕ) → 16 * s.settings.ceiling ≤ words / 3
        → preview_refusal s t words ≡ commit_refusal s t }
{}

/// Where a commit is accepted, the entries are what the chain by the rules has then beyond the chain before.
#[tactic(auto, using(crate::proofs::ClaimLaws::entries_beyond))]
pub fn entries_beyond()
    ensures { (s : State) (t : List ℕ) → commit_refusal s t ≡ 0
        → ListsBeyond s.settings s.blocks (view s t).chain (ruled_view s t).chain
        (preview_entries s t) }
{}

/// The entries are at most 16 for each round of the ceiling, so a list that check 25 lets pass has room for them.
#[tactic(auto, using(crate::proofs::ClaimLaws::room_for_all))]
pub fn room_for_all()
    ensures { (s : State) (t : List ℕ) → commit_refusal s t ≡ 0
        → length (preview_entries s t) ≤ 16 * s.settings.ceiling }
{}
