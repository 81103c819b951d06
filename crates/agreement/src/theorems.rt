//! What is so of every run over any rules that meet the laws.

ghost use Rattle.std.specs.Prelude.{Bool, List, [], true, ℕ, ◌++◌, ◌<◌, ◌≡◌, ◌⊎◌, Some};
ghost use Rattle.agreement.specs.Dag.{Held, Placed, Reach};
ghost use Rattle.agreement.specs.Entries.{Entry};
ghost use Rattle.agreement.specs.Histories.{in_history};
ghost use Rattle.agreement.specs.Invariants.{Agree, Sound};
ghost use Rattle.agreement.specs.Laws.{Lawful};
ghost use Rattle.agreement.specs.Listing.{Lists};
ghost use Rattle.agreement.specs.Machines.{Legal, Machine, views};
ghost use Rattle.agreement.specs.Prefixes.{Comparable, block_numbered, ◌≼◌};
ghost use Rattle.agreement.specs.Quorum.{Common, Quorum, Tolerant};
ghost use Rattle.agreement.specs.Rules.{Block, Chain, Rules};
ghost use Rattle.agreement.specs.Runs.{Run, Start};
ghost use Rattle.agreement.specs.View.{Knows, Log, View, World};
ghost use Rattle.agreement.specs.Weights.{total};

/// Rules, as the theory takes them: any at all.
pub trait AnyRules {
    ghost rules: { Rules };
}

/// Machines, as the theory takes them: members with states of their own, whose calls are moves by some rules.
pub trait AnyMachines {
    ghost rules: { Rules };

    ghost correct: { ℕ → Bool };

    ghost machine: { Machine rules correct };
}

/// Two quorums of a committee, in which the faulty members weigh at most the bound, have a correct member in common.
#[tactic(auto, using(crate::proofs::QuorumIntersection::quorums_meet))]
pub fn quorums_meet<R: AnyRules>()
    ensures { Lawful R.rules → (w : ℕ → ℕ) (S T correct : ℕ → Bool) → Tolerant R.rules correct w
        → 0 < total R.rules.size w → Quorum R.rules w S → Quorum R.rules w T
        → Common R.rules.size S T correct }
{}

/// A committee that a chain tells stays as it is when the chain grows, and stays known.
#[tactic(auto, using(crate::proofs::KnownCommittees::known_stays, crate::proofs::KnownCommittees::committee_stays))]
pub fn committees_stay<R: AnyRules>()
    ensures known { Lawful R.rules → (c d : Chain R.rules.P) (r : ℕ) → c ≼ d
        → R.rules.known c r ≡ true → R.rules.known d r ≡ true }
    ensures alike { Lawful R.rules → (c d : Chain R.rules.P) (r : ℕ) → c ≼ d
        → R.rules.known c r ≡ true → R.rules.committee d r ≡ R.rules.committee c r }
{}

/// The history that an engine computes, round by round downwards, is the history: the certificate and, repeatedly, held certificates that are named as previous.
#[tactic(auto, using(crate::proofs::HistoryLaws::history_reach, crate::proofs::HistoryLaws::reach_history))]
pub fn history_is_reached<R: AnyRules>()
    ensures reached { (s : View R.rules) → Placed s → (x : R.rules.P) → Held s x → (r a : ℕ)
        → in_history s x r a ≡ true → (q : R.rules.P) × (s.dag a r ≡ Some q) × Reach s x q }
    ensures computed { (s : View R.rules) → Placed s → (x q : R.rules.P) → Held s x → Reach s x q
        → in_history s x (R.rules.round q) (R.rules.author q) ≡ true }
{}

/// The invariants hold in every world of a run.
#[tactic(auto, using(crate::proofs::Agreement::is_sound))]
pub fn sound<R: AnyRules>()
    ensures { (correct : ℕ → Bool) (start w : World R.rules) (G : Log R.rules) → Lawful R.rules
        → Start correct start → Run correct start (λ (i : ℕ). []) w G → Sound correct w G }
{}

/// Of two correct members' chains one is a prefix of the other, in every world of a run.
#[tactic(auto, using(crate::proofs::Agreement::never_fork))]
pub fn never_fork<R: AnyRules>()
    ensures { (correct : ℕ → Bool) (start w : World R.rules) (G : Log R.rules) → Lawful R.rules
        → Start correct start → Run correct start (λ (i : ℕ). []) w G → Agree correct w }
{}

/// Correct members who know a round know the same committee.
#[tactic(auto, using(crate::proofs::Agreement::committees_agree))]
pub fn committees_agree<R: AnyRules>()
    ensures { (correct : ℕ → Bool) (start w : World R.rules) (G : Log R.rules) → Lawful R.rules
        → Start correct start → Run correct start (λ (i : ℕ). []) w G
        → (i j r : ℕ) → correct i ≡ true → correct j ≡ true → Knows (w i) r → Knows (w j) r
        → R.rules.committee (w i).chain r ≡ R.rules.committee (w j).chain r }
{}

/// Between any two worlds of a run a chain only grows.
#[tactic(auto, using(crate::proofs::Agreement::chains_grow))]
pub fn chains_grow<R: AnyRules>()
    ensures { (correct : ℕ → Bool) (w v : World R.rules) (G H : Log R.rules) → Run correct w G v H
        → (i : ℕ) → (w i).chain ≼ (v i).chain }
{}

/// So a block once made stays, with its number, its round and its certificates.
#[tactic(auto, using(crate::proofs::Agreement::blocks_stay))]
pub fn blocks_stay<R: AnyRules>()
    ensures { (correct : ℕ → Bool) (w v : World R.rules) (G H : Log R.rules) → Run correct w G v H
        → (i n : ℕ) (b : Block R.rules.P) → block_numbered (w i).chain n ≡ Some b
        → block_numbered (v i).chain n ≡ Some b }
{}

/// Chains of which one is a prefix of the other list so too, whatever the order inside a block.
pub fn listed_alike<R: AnyRules>()
    ensures { (order : Block R.rules.P → Chain R.rules.P → List R.rules.P) (c d : Chain R.rules.P)
        → Comparable c d → Lists order c d ⊎ Lists order d c }
{}

/// Over any list of calls of machines, of two correct members' chains one is a prefix of the other.
#[tactic(auto, using(crate::proofs::MachineAgreement::machines_never_fork))]
pub fn machines_never_fork<M: AnyMachines>()
    ensures { (start : ℕ → M.machine.State) → Lawful M.rules
        → ((i : ℕ) → M.correct i ≡ true → M.machine.Good i (start i))
        → Start M.correct (λ (i : ℕ). M.machine.view (start i))
        → (l : List (Entry M.machine.Call)) → Legal M.machine start l
        → Agree M.correct (views M.machine start l) }
{}

/// Their committees are alike.
#[tactic(auto, using(crate::proofs::MachineAgreement::machines_committees))]
pub fn machines_committees<M: AnyMachines>()
    ensures { (start : ℕ → M.machine.State) → Lawful M.rules
        → ((i : ℕ) → M.correct i ≡ true → M.machine.Good i (start i))
        → Start M.correct (λ (i : ℕ). M.machine.view (start i))
        → (l : List (Entry M.machine.Call)) → Legal M.machine start l → (i j r : ℕ)
        → M.correct i ≡ true → M.correct j ≡ true → Knows (views M.machine start l i) r
        → Knows (views M.machine start l j) r
        → M.rules.committee (views M.machine start l i).chain r
        ≡ M.rules.committee (views M.machine start l j).chain r }
{}

/// And no later call undoes a block.
pub fn machines_grow<M: AnyMachines>()
    ensures { (start : ℕ → M.machine.State) → Lawful M.rules
        → ((i : ℕ) → M.correct i ≡ true → M.machine.Good i (start i))
        → Start M.correct (λ (i : ℕ). M.machine.view (start i))
        → (m l : List (Entry M.machine.Call)) → Legal M.machine start (m ++ l) → (i : ℕ)
        → (views M.machine start l i).chain ≼ (views M.machine start (m ++ l) i).chain }
{}
