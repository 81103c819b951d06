//! What each call and batch leaves in guests' queues, and that draws are fair, over every list.

ghost use Rattle.std.specs.Prelude.{List, ℕ, ◌≡◌, ◌≢◌};
ghost use Rattle.batch.specs.Batch.{Row};
ghost use Rattle.engine.specs.Calls.{Call};
ghost use Rattle.engine.specs.Engine.{Engine, after};
ghost use Rattle.fairness.specs.Batches.{moments_then};
ghost use Rattle.fairness.specs.Fairness.{FairIn, moments};
ghost use Rattle.fairness.specs.Guests.{LeftOf, moments_asked};
ghost use Rattle.fairness.specs.Kept.{queues, queues_after};
ghost use Rattle.submissions.specs.Requests.{Asked, Request, guest, result_of};
ghost use Rattle.submissions.specs.Submissions.{Submission, after_submission, batch};

/// Each call, accepted or refused, leaves in the queues what is said of it.
#[tactic(auto, using(crate::proofs::KeptLaws::queues_kept))]
pub fn queues_kept()
    ensures { (e : Engine) (c : Call) → queues (after e c) ≡ queues_after e c }
{}

/// Draws are fair over every list of calls, from any engine on.
#[tactic(auto, using(crate::proofs::FairLaws::fairness))]
pub fn fairness_over_calls()
    ensures { (e : Engine) (calls : List Call) → FairIn (moments e calls) }
{}

/// A batch leaves the queues as they were.
#[tactic(auto, using(crate::proofs::BatchLaws::batch_keeps_queues))]
pub fn batch_keeps_queues()
    ensures { (e : Engine) (row : Row) (answers : List ℕ)
        → queues (after_submission e (batch row answers)) ≡ queues e }
{}

/// Draws are fair over every list of calls and batches.
#[tactic(auto, using(crate::proofs::BatchLaws::fairness_with_batches))]
pub fn fairness_with_batches()
    ensures { (e : Engine) (l : List Submission) → FairIn (moments_then e l) }
{}

/// What a caller asks adds to no queue but its own.
#[tactic(auto, using(crate::proofs::GuestLaws::adds_to_no_other))]
pub fn adds_to_no_other()
    ensures { (e : Engine) (c : ℕ) (a : Asked) (h : ℕ) → h ≢ c → LeftOf ((queues e).waiting h)
        ((queues (result_of e (guest c a)).engine).waiting h) }
{}

/// Draws are fair over every list of requests of hosts and guests.
#[tactic(auto, using(crate::proofs::GuestLaws::fairness_with_guests))]
pub fn fairness_with_guests()
    ensures { (e : Engine) (l : List Request) → FairIn (moments_asked e l) }
{}
