//! What every call does to an engine, what is so of every engine that calls lead to, and that rights stay.

ghost use Rattle.std.specs.Prelude.{List, true, ℕ, ◌++◌, ◌≡◌, ◌⊎◌, Some};
ghost use Rattle.agreement.specs.Prefixes.{block_numbered};
ghost use Rattle.agreement.specs.Rules.{Block, Chain};
ghost use Rattle.committee.specs.Chain.{chain_of};
ghost use Rattle.engine.specs.Calls.{Call, InRange, accept, certify, opens};
ghost use Rattle.engine.specs.Engine.{Engine, after, refusal_for};
ghost use Rattle.engine.specs.Guests.{GuestCall, as_host};
ghost use Rattle.engine.specs.Reached.{Reached};
ghost use Rattle.engine.specs.Sequences.{AllInRange, NoOpen, NoOpens, Opening, after_calls, after_opening};
ghost use Rattle.engine.specs.Steps.{FreshlyOpened, SetInRange, Step, ruled, view_at};
ghost use Rattle.rules.specs.Calls as rules;
ghost use Rattle.rules.specs.Calls.{ruled_refusal};
ghost use Rattle.state.specs.WellFormed.{well_formed};
ghost use Rattle.terms.specs.Proposals.{Content};
ghost use Rattle.terms.specs.declared.Certificate.{Certificate};
ghost use Rattle.terms.specs.declared.Member.{Member};
ghost use Rattle.terms.specs.declared.sheet.Sheet.{Sheet};

/// Every call is refused and changes nothing, or does what the rules say.
pub fn every_step()
    ensures { (e : Engine) → SetInRange e → (c : Call) → InRange c → Step e c }
{}

/// On a well-formed state the number that refuses a call is the rules' number for what the engine shows; or the rules have the call for a read, and it is refused with a number of its own.
pub fn refused_as_ruled()
    ensures { (e : Engine) → well_formed e.state e.table ≡ true → (c : Call)
        → (refusal_for e c
        ≡ ruled_refusal e.state.settings e.state.own.0 (view_at e.state.settings e)
        (ruled e c)) ⊎ (ruled e c ≡ rules.read) }
{}

/// So what an engine shows after any call but an accepted open is what the rules leave of what it showed before.
pub fn leaves_as_ruled()
    ensures { (e : Engine) → well_formed e.state e.table ≡ true → SetInRange e → (c : Call)
        → InRange c → NoOpen e c
        → view_at e.state.settings (after e c)
        ≡ rules.result e.state.settings e.state.own.0 (view_at e.state.settings e) (ruled e c) }
{}

/// An accepted open leaves a well-formed state of round 1 and nothing else that the rules see, whatever state and table were there.
pub fn opened_fresh()
    ensures { (e : Engine) (own : Member) (sheet : Sheet) → refusal_for e (opens own sheet) ≡ 0
        → FreshlyOpened own sheet e (after e (opens own sheet)) }
{}

/// Whatever endorsers a certificate is stored with, an engine shows the same afterwards.
pub fn endorsers_not_shown()
    ensures certify { (e : Engine) → well_formed e.state e.table ≡ true → SetInRange e → (d f : ℕ)
        → InRange (certify d) → InRange (certify f)
        → refusal_for e (certify d) ≡ 0 → refusal_for e (certify f) ≡ 0
        → view_at e.state.settings (after e (certify d))
        ≡ view_at e.state.settings (after e (certify f)) }
    ensures accept { (e : Engine) → well_formed e.state e.table ≡ true → SetInRange e
        → (c d : Certificate) → c.proposal ≡ d.proposal → InRange (accept c) → InRange (accept d)
        → refusal_for e (accept c) ≡ 0 → refusal_for e (accept d) ≡ 0
        → view_at e.state.settings (after e (accept c))
        ≡ view_at e.state.settings (after e (accept d)) }
{}

/// Every engine that calls lead to from an accepted open is well formed, whoever signed.
pub fn reached_formed()
    ensures { (e : Engine) → Reached e → well_formed e.state e.table ≡ true }
{}

/// A block once made stays, whoever signed: whatever calls follow, as long as no open is accepted, the chain is the one of before with newer blocks, or none, and each block keeps its number, its round and its certificates.
pub fn blocks_stay()
    ensures grown { (e : Engine) → Reached e → (l : List Call) → AllInRange l → NoOpens e l
        → let d = after_calls e l in
        (newer : Chain Content) × (chain_of d.state.settings.ceiling d.table d.state.blocks
        ≡ newer ++ chain_of e.state.settings.ceiling e.table e.state.blocks) }
    ensures kept { (e : Engine) → Reached e → (l : List Call) → AllInRange l → NoOpens e l
        → let d = after_calls e l in (n : ℕ) (b : Block Content)
        → block_numbered (chain_of e.state.settings.ceiling e.table e.state.blocks) n ≡ Some b
        → block_numbered (chain_of d.state.settings.ceiling d.table d.state.blocks) n
        ≡ Some b }
{}

/// Rights are those of the open, and no other call changes them, whatever state and table it is made on.
#[tactic(auto, using(crate::proofs::GuestLaws::rights_opened, crate::proofs::GuestLaws::rights_kept))]
pub fn rights_stay()
    ensures opened { (x : Opening) → (after_opening x).state.rights ≡ x.sheet.rights }
    ensures kept { (e : Engine) (l : List Call)
        → NoOpens e l → (after_calls e l).state.rights ≡ e.state.rights }
{}

/// What a guest asks for is never an accepted open.
pub fn guests_never_open()
    ensures { (e : Engine) (c : ℕ) (k : GuestCall) → NoOpen e (as_host c k) }
{}
