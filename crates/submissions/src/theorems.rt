//! What batches and guests' requests leave, that chains never fork with them, and what rights keep apart.

ghost use Rattle.std.specs.Prelude.{List, ℕ, ◌≡◌};
ghost use Rattle.agreement.specs.Entries as entries;
ghost use Rattle.engine.specs.Engine.{Engine};
ghost use Rattle.engine.specs.Reached.{Reached};
ghost use Rattle.engine.specs.Sequences.{AllInRange, after_calls};
ghost use Rattle.nonforking.specs.Statement.{Entry, Members, Run, engine_behaviour};
ghost use Rattle.submissions.specs.Requests.{AgreedAsked, AlikeAndUnchanged, Allowed, Asked, InRangeThen, Lacks, NoOpensAsked, Request, after_requests, guest, host, result_of, submission_of, submitted, submitted_by};
ghost use Rattle.submissions.specs.Submissions.{AgreedThen, Submission, after_submission, calls_of, unrolled};

/// A submission leaves what its calls leave, made one by one.
#[tactic(auto, using(crate::proofs::SubmissionLaws::leaves_as_its_calls))]
pub fn leaves_as_its_calls()
    ensures { (e : Engine) (x : Submission) → after_submission e x ≡ after_calls e (calls_of e x) }
{}

/// What is so of every engine that calls lead to is so of those that batches lead to.
#[tactic(auto, using(crate::proofs::SubmissionLaws::batches_lead_to))]
pub fn batches_lead_to()
    ensures { (e : Engine) → Reached e → (x : Submission) → AllInRange (calls_of e x)
        → Reached (after_submission e x) }
{}

/// Chains never fork where batches are among the entries.
#[tactic(auto, using(crate::proofs::SubmissionLaws::chains_never_fork_with_batches))]
pub fn chains_never_fork_with_batches()
    ensures { (X : Members engine_behaviour) (l : List (entries.Entry Submission))
        → Run X (unrolled X l) → AgreedThen X l }
{}

/// A caller with the right changes and is answered what the host's own request would be.
#[tactic(auto, using(crate::proofs::RequestLaws::allowed_as_host))]
pub fn allowed_as_host()
    ensures { (e : Engine) (c : ℕ) (a : Asked) → Allowed e c a
        → result_of e (guest c a) ≡ result_of e (host (submitted_by c a)) }
{}

/// Noninterference: of two engines with the same rights, whatever else they hold, a caller that lacks a right learns nothing by what needs it, and changes nothing.
#[tactic(auto, using(crate::proofs::RequestLaws::noninterference))]
pub fn noninterference()
    ensures { (e d : Engine) → e.state.rights ≡ d.state.rights → (c : ℕ) (a : Asked) → Lacks e c a
        → AlikeAndUnchanged e d (guest c a) }
{}

/// Rights stay as the open fixed them, whatever hosts and guests ask.
#[tactic(auto, using(crate::proofs::RequestLaws::rights_stay_then))]
pub fn rights_stay_then()
    ensures { (e : Engine) (l : List Request) → NoOpensAsked e l
        → (after_requests e l).state.rights ≡ e.state.rights }
{}

/// What is so of every engine that calls lead to is so of those that requests of hosts and guests lead to.
#[tactic(auto, using(crate::proofs::RequestLaws::requests_lead_to))]
pub fn requests_lead_to()
    ensures { (e : Engine) → Reached e → (x : Request) → InRangeThen e (submission_of e x)
        → Reached (result_of e x).engine }
{}

/// Chains never fork where requests of guests are among the entries, whatever rights each member gives.
#[tactic(auto, using(crate::proofs::RequestLaws::chains_never_fork_with_guests))]
pub fn chains_never_fork_with_guests()
    ensures { (X : Members engine_behaviour) (l : List (entries.Entry Request))
        → Run X (unrolled X (submitted X l)) → AgreedAsked X l }
{}
