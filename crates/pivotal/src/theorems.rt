//! What commits hang on, and that the list of critical certificates tells it.

ghost use Rattle.std.proofs.Math.Seq.{paste};
ghost use Rattle.std.specs.Prelude.{List, if◌then◌else◌, length, true, ℕ, ◌/◌, ◌<◌, ◌≡◌, ◌≤◌};
ghost use Rattle.critical.specs.Critical.{critical_places, refusal_without};
ghost use Rattle.engine.specs.Calls.{aside, commit, critical};
ghost use Rattle.engine.specs.Engine.{Engine, refusal_for};
ghost use Rattle.engine.specs.Reached.{Reached};
ghost use Rattle.pivotal.specs.Pivotal.{HangsOnPivots};
ghost use Rattle.ports.specs.Ports.{port_count, port_length, port_start, ports_fit};
ghost use Rattle.chain_committees.specs.BlockChanges.{last_round};
ghost use Rattle.state.specs.WellFormed.{well_formed};
ghost use Rattle.store.specs.Table.{Row, held_at, mark_at};
ghost use Rattle.store.specs.Writes.{clear_held};

/// In every engine that calls lead to, where a commit would be accepted, it hangs on exactly its pivots.
#[tactic(auto, using(crate::proofs::PivotLaws::commits_hang_on_pivots))]
pub fn commits_hang_on_pivots()
    ensures { (e : Engine) → Reached e → refusal_for e commit ≡ 0 → HangsOnPivots e }
{}

/// In every engine that calls lead to no held certificate of a round above the last block's is in a block.
pub fn none_above()
    ensures { (e : Engine) → Reached e → (a q : ℕ) → held_at e.table a q ≡ true
        → last_round e.table e.state.blocks < q → q ≤ e.state.settings.ceiling
        → mark_at e.table a q ≡ 0 }
{}

/// On a well-formed state without a certificate a commit is refused with the number that the list goes by; and with 1 where a serial port stands at what is absent, which the list does not count.
#[tactic(auto, using(crate::proofs::RefusalLaws::absent_as_commit))]
pub fn absent_as_commit()
    ensures { (e : Engine) → well_formed e.state e.table ≡ true → (a q : ℕ) → a < 16 → 0 < q
        → q ≤ e.state.settings.ceiling
        → refusal_for (record { state = e.state; table = clear_held e.table a q }) commit
        ≡ (if ports_fit e.state.settings (clear_held e.table a q) e.state.blocks
        then refusal_without e.state e.table a q else 1) }
{}

/// The list is the same whatever the words of a port are.
#[tactic(auto, using(crate::proofs::PortLaws::ports_not_counted))]
pub fn ports_not_counted()
    ensures { (e : Engine) → Row e.table 0 → (g : ℕ) → g < port_count → (w : List ℕ)
        → length w ≡ port_length
        → critical_places e.state (paste e.table (port_start g) w port_length)
        ≡ critical_places e.state e.table }
{}

/// A list of 32 places is refused as a commit would be, with the same number.
#[tactic(auto, using(crate::proofs::RefusalLaws::critical_refused_as_commit))]
pub fn critical_refused_as_commit()
    ensures { (e : Engine) (words : ℕ) → 32 ≤ words / 2 → refusal_for e (aside (critical words))
        ≡ refusal_for e commit }
{}

/// 32 places are enough in every state.
#[tactic(auto, using(crate::proofs::RefusalLaws::room_for_critical))]
pub fn room_for_critical()
    ensures { (e : Engine) → length (critical_places e.state e.table) ≤ 32 }
{}
