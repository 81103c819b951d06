//! Claims of calls, with batches and guests' requests.
//!
//! Theorems, no code. That states stay well formed and blocks stay, what a held certificate keeps, how blocks start, and that runs were allowed by the earlier rules, carried to lists in which hosts submit batches and guests ask; and whatever else holds of the engines after every run of calls (`carries_to_requests`).
#![tactic(auto)]

ghost use Rattle.std.specs.Prelude.{◌≡◌, true, List, ◌∷◌, ◌++◌, ℕ, ◌≤◌, Some};
ghost use Rattle.agreement.specs.Entries as entries;
ghost use Rattle.agreement.specs.Prefixes.{block_numbered};
ghost use Rattle.agreement.specs.Rules.{Block, Chain};
ghost use Rattle.terms.specs.Proposals.{Content};
ghost use Rattle.rules.specs.AnchorStarts.{StartsWithAnchor};
ghost use Rattle.engine.specs.Engine.{Engine};
ghost use Rattle.state.specs.WellFormed.{well_formed};
ghost use Rattle.engine.specs.Reached.{Reached};
ghost use Rattle.engine.specs.Sequences.{Opening, after_calls, after_opening};
ghost use Rattle.nonforking.specs.Statement.{chain, engine_after, Members, engine_behaviour, Entry, Run, Agreed};
ghost use Rattle.nonforking.specs.Stored.{Holds, Shows};
ghost use Rattle.submissions.specs.Requests.{Request, after_requests, engine_asked, NoOpensAsked, ChainsNeverForkWithGuests};
ghost use Rattle.earlier.specs.Earlier.{MembersRefuseMore, earlier_behaviour};
ghost use Rattle.kept.specs.Kept.{calls_asked, AskedInRange, StoredThen};
ghost use Rattle.kept.specs.Runs.{counted, AllowedThen};

use earlier::theorems::Property;

/// Requests leave what the calls leave that they count as, made one by one.
pub fn leaves_as_calls()
    ensures { (e : Engine) (l : List Request)
        → after_requests e l ≡ after_calls e (calls_asked e l) }
{}

/// Every engine that requests lead to is well formed, whoever signed.
pub fn reached_formed()
    ensures { (e : Engine) → Reached e → (l : List Request) → AskedInRange e l
        → well_formed (after_requests e l).state (after_requests e l).table ≡ true }
{}

/// A block once made stays, whoever signed: whatever hosts and guests ask, batches among it, as long as no open is accepted, the chain is the one of before with newer blocks, or none, and each block keeps its number, its round and its certificates.
pub fn blocks_stay()
    ensures grown { (e : Engine) → Reached e → (l : List Request) → AskedInRange e l
        → NoOpensAsked e l → (newer : Chain Content)
        × (chain (after_requests e l) ≡ newer ++ chain e) }
    ensures kept { (e : Engine) → Reached e → (l : List Request) → AskedInRange e l
        → NoOpensAsked e l → (n : ℕ) (b : Block Content)
        → block_numbered (chain e) n ≡ Some b
        → block_numbered (chain (after_requests e l)) n ≡ Some b }
{}

/// Whatever hosts and guests ask, batches among it: a held certificate stays held, with its proposal and its endorsers, as long as no open is accepted.
pub fn certificate_stays()
    ensures { (e : Engine) (l : List Request) → NoOpensAsked e l → (a r : ℕ) (p : Content) (d : ℕ)
        → Holds e.table a r p d → Holds (after_requests e l).table a r p d }
{}

/// What an accepted certify or accept took, in a batch or alone, is held, with the endorsers that it took it with.
#[tactic(auto, using(crate::proofs::KeptLaws::stored_held_then))]
pub fn stored_held()
    ensures { (x : Opening) (l : List Request) → AskedInRange (after_opening x) l
        → (p : Content) (d : ℕ)
        → StoredThen (after_opening x) l p d
        → Holds (after_requests (after_opening x) l).table p.author p.round p d }
{}

/// What is held an accepted certify or accept took, with those endorsers.
#[tactic(auto, using(crate::proofs::KeptLaws::held_stored_then))]
pub fn held_stored()
    ensures { (x : Opening) (l : List Request) → AskedInRange (after_opening x) l
        → (a r : ℕ) (p : Content) (d : ℕ)
        → r ≤ (after_requests (after_opening x) l).state.settings.ceiling → Holds
        (after_requests (after_opening x) l).table a r p d
        → StoredThen (after_opening x) l p d }
{}

/// And the read shows it.
#[tactic(auto, using(crate::proofs::KeptLaws::stored_shown_then))]
pub fn stored_shown()
    ensures { (x : Opening) (l : List Request) → AskedInRange (after_opening x) l
        → (p : Content) (d : ℕ) → StoredThen (after_opening x) l p d
        → Shows (after_requests (after_opening x) l) p.author p.round p d }
{}

/// Whatever property the members' engines have after every run of calls, they have after every list of requests that counts as one.
pub fn carries_to_requests<P: Property>()
    ensures { (X : Members engine_behaviour)
        → ((l : List Entry) → Run X l → P.holds (engine_after X l))
        → (l : List (entries.Entry Request)) → Run X (counted X l) → P.holds (engine_asked X l) }
{}

/// The order inside a block starts with the author of its anchor, for each block of each correct member.
pub fn starts_with_anchor()
    ensures { (X : Members engine_behaviour) (l : List (entries.Entry Request))
        → Run X (counted X l) → (i : ℕ) → X.correct i ≡ true
        → (newer : Chain Content) (b : Block Content) (c : Chain Content)
        → chain (engine_asked X l i) ≡ newer ++ (b ∷ c)
        → StartsWithAnchor X.settings (chain (engine_asked X l i)) b c }
{}

/// What members ask now, the refused calls left out, was allowed before an advance asked for a quorum, and led to the same engines.
pub fn was_allowed_earlier()
    ensures { (R : MembersRefuseMore) (X : Members engine_behaviour)
        (l : List (entries.Entry Request)) → Run X (counted X l) → AllowedThen R X l }
{}

/// If chains never forked by the earlier rules, they never fork now, batches and guests' requests among what members ask.
#[tactic(auto, using(crate::proofs::RunLaws::agreement_carries_over_then))]
pub fn agreement_carries_over()
    ensures { ((X : Members earlier_behaviour) (l : List Entry) → Run X l → Agreed X l)
        → ChainsNeverForkWithGuests }
{}
