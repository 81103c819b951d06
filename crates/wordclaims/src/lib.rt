//! What is claimed of engines, of the words hosts keep.
//!
//! Theorems, no code. Over every list of the library's calls: what was taken is passed on with its endorsers, weights add up, and a commit hangs on its anchor and on decisive votes; what stays ([`stays`]), what guests may rely on ([`guests`]), and what holds of several members' hosts ([`members`]).
#![tactic(auto)]

pub mod guests;
pub mod members;
pub mod stays;

ghost use Rattle.std.specs.Prelude.{◌≡◌, List, ℕ, ◌≤◌, length};
ghost use Rattle.terms.specs.Proposals.{Content};
ghost use Rattle.engine.specs.Calls.{commit};
ghost use Rattle.engine.specs.Engine.{refusal_for};
ghost use Rattle.words.specs.Lengths.{held_length};
ghost use Rattle.balance.specs.Balance.{AddsUp};
ghost use Rattle.pivotal.specs.Pivotal.{HangsOnPivots};
ghost use Rattle.library.specs.Calls.{LibraryCall};
ghost use Rattle.library.specs.Lists.{engine_of, Opening, after_opening, AllTyped};
ghost use Rattle.wordclaims.specs.Claims.{left_after, TookSince, PassesOn};

/// What an accepted certify or accept took, alone, for a guest or in a batch, can be passed on ever after with the endorsers that it was taken with, until the next accepted open.
pub fn stored_passes_on()
    ensures { (x : Opening) (l : List LibraryCall) → AllTyped l → (p : Content) (d : ℕ)
        → TookSince (after_opening x) l p d → (o : List ℕ) → held_length ≤ length o
        → PassesOn (left_after x l) p d o }
{}

/// In all words that the library leaves weights add up.
pub fn weights_add_up()
    ensures { (x : Opening) (l : List LibraryCall)
        → AllTyped l → AddsUp (engine_of (left_after x l)) }
{}

/// Where a commit would be accepted, it hangs on exactly its pivots.
#[tactic(auto, using(crate::proofs::ClaimLaws::commits_hang_over_words))]
pub fn commits_hang_on_pivots()
    ensures { (x : Opening) (l : List LibraryCall)
        → AllTyped l → refusal_for (engine_of (left_after x l)) commit ≡ 0 → HangsOnPivots
        (engine_of (left_after x l)) }
{}
