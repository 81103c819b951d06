//! What holds of owned words: a resume takes those that an open leaves, and those that calls leave; and every call but open and commit leaves them owned, whoever makes it.

ghost use Rattle.std.specs.Prelude.{◌≡◌, true, Bool, List, ℕ, ◌≤◌, length};
ghost use Rattle.chain_committees.specs.Caches.{words_to};
ghost use Rattle.engine.specs.Calls.{Call};
ghost use Rattle.words.specs.States.{state_in};
ghost use Rattle.hosting.specs.Calls.{result_of};
ghost use Rattle.hosting.specs.Handed.{Handed};
ghost use Rattle.hosting.specs.HostCalls.{opens, comes_to};
ghost use Rattle.owned.specs.Owned.{Owned, makes_none};
ghost use Rattle.owned.specs.Resuming.{Resumable};

/// After an accepted open, which clears its table, a resume answers that the words can be owned, where the kept stretch has room.
pub fn opened_resumes()
    ensures { (w t k : List ℕ) (own : ℕ) (sheet : List ℕ) (rights : ℕ)
        → (comes_to w t (opens own sheet rights)).refusal ≡ 0
        → words_to (state_in (comes_to w t (opens own sheet rights)).state).settings.ceiling
        ≤ length k
        → Resumable (comes_to w t (opens own sheet rights)).state
        (comes_to w t (opens own sheet rights)).table k }
{}

/// Of words that are owned a resume answers so, at any time: whoever asks again learns whether they still are.
#[tactic(auto, using(crate::proofs::ResumingLaws::owned_resumes))]
pub fn owned_resumes()
    ensures { (w t k l : List ℕ) → Owned w t k
        → words_to (state_in w).settings.ceiling ≤ length l → Resumable w t l }
{}

/// Every call and read but open and commit leaves owned words owned, accepted or refused, by whichever function it is made.
pub fn stays_owned()
    ensures { (w t k : List ℕ) → Owned w t k → (o : List ℕ) (b : Bool) (c : Call) → Handed b c
        → makes_none c ≡ true → Owned (result_of w t o b c).state (result_of w t o b c).table k }
{}
