//! Members refuse more than by the earlier rules, and what held of runs by those carries over.

ghost use Rattle.std.specs.Prelude.{List, ℕ, ◌≡◌, ◌≢◌};
ghost use Rattle.earlier.specs.Earlier.{MembersRefuseMore, answered_earlier, earlier_after, earlier_behaviour, earlier_refusal};
ghost use Rattle.earlier.specs.Refusing.{RefusesMore, WasAllowed, accepted_only, answering_as};
ghost use Rattle.engine.specs.Calls.{advance};
ghost use Rattle.engine.specs.Engine.{Engine, refusal_for};
ghost use Rattle.engine.specs.Sequences.{Opening, after_opening};
ghost use Rattle.nonforking.specs.Statement.{Agreed, Behaviour, ChainsNeverFork, Entry, Members, Run, engine_after, engine_behaviour};

/// What may hold of the members' engines at one moment, member by number: any property at all.
pub trait Property {
    ghost holds: { (ℕ → Engine) → Type 0 };
}

/// A list with its refused calls left out leads each member to the same engine by the rules that refuse less as the whole list by those that refuse more.
#[tactic(auto, using(crate::proofs::RefusingLaws::same_engines))]
pub fn same_engines()
    ensures { (E D : Behaviour) (R : RefusesMore E D) (X : Members E) (l : List Entry) (i : ℕ)
        → engine_after (answering_as R X) (accepted_only X l) i ≡ engine_after X l i }
{}

/// Every run by the rules that refuse more, its refused calls left out, was allowed by those that refuse less.
pub fn runs_were_allowed()
    ensures { (E D : Behaviour) (R : RefusesMore E D) (X : Members E) (l : List Entry) → Run X l
        → WasAllowed R X l }
{}

/// Whatever property the members' engines have after every run by the rules that refuse less, they have after every run by those that refuse more.
pub fn carries_over<P: Property>()
    ensures { (E D : Behaviour) (R : RefusesMore E D) (X : Members E)
        → ((l : List Entry) → Run (answering_as R X) l
        → P.holds (engine_after (answering_as R X) l))
        → (l : List Entry) → Run X l → P.holds (engine_after X l) }
{}

/// Members refuse more than by the earlier rules.
#[tactic(auto, using(crate::proofs::EarlierLaws::members_refuse_more))]
pub fn members_refuse_more()
    ensures { RefusesMore engine_behaviour earlier_behaviour }
{}

/// By 8 and 28 of an advance, and by nothing else.
#[tactic(auto, using(crate::proofs::EarlierLaws::only_thin_refused))]
pub fn only_thin_refused()
    ensures { (e : Engine) → earlier_refusal e advance ≡ answered_earlier (refusal_for e advance) }
{}

/// What was refused by the earlier rules changed nothing.
#[tactic(auto, using(crate::proofs::EarlierLaws::earlier_refused_same))]
pub fn earlier_refused_same()
    ensures { (e : Engine) → earlier_refusal e advance ≢ 0 → earlier_after e advance ≡ e }
{}

/// Every run of now, its refused calls left out, was allowed by the earlier rules.
pub fn was_allowed_earlier()
    ensures { (R : MembersRefuseMore) (X : Members engine_behaviour) (l : List Entry) → Run X l
        → WasAllowed R X l }
{}

/// If chains never forked by the earlier rules, they never fork now.
#[tactic(auto, using(crate::proofs::EarlierLaws::agreement_carries_over))]
pub fn agreement_carries_over()
    ensures { ((X : Members earlier_behaviour) (l : List Entry) → Run X l → Agreed X l)
        → ChainsNeverFork }
{}

/// And members do refuse more: whoever has just opened and holds nothing went on to the next round by the earlier rules, and is refused now.
#[tactic(auto, using(crate::proofs::Thin::thin_refused, crate::proofs::Thin::thin_allowed_earlier))]
pub fn thin_advance()
    ensures refused { (x : Opening) → refusal_for (after_opening x) advance ≡ 28 }
    ensures allowed { (x : Opening) → earlier_refusal (after_opening x) advance ≡ 0 }
{}
