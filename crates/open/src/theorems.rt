//! What decides an opening.

ghost use Rattle.std.specs.Prelude.{List, take, ℕ, ◌≡◌};
ghost use Rattle.open.specs.Open.{open_refusal, open_state, open_table};
ghost use Rattle.state.specs.declared.State.{State};
ghost use Rattle.store.specs.Table.{used_length};
ghost use Rattle.terms.specs.Sheets.{filled};
ghost use Rattle.terms.specs.declared.Member.{Member};
ghost use Rattle.terms.specs.declared.sheet.Sheet.{Sheet};

/// Sheets with equal filled settings and equal rights open alike, accepted or refused: the same answer, state and table.
pub fn equal_settings_open()
    ensures refusal { (t : List ℕ) (own : Member) (a b : Sheet) → filled a ≡ filled b
        → a.rights ≡ b.rights → open_refusal t own (filled a) ≡ open_refusal t own (filled b) }
    ensures state { (s : State) (t : List ℕ) (own : Member) (a b : Sheet) → filled a ≡ filled b
        → a.rights ≡ b.rights → open_state s t own a ≡ open_state s t own b }
    ensures table { (t : List ℕ) (own : Member) (a b : Sheet) → filled a ≡ filled b
        → a.rights ≡ b.rights → open_table t own a ≡ open_table t own b }
{}

/// Accepted opens of such sheets leave equal states and, in the part that is used, equal tables, whatever was there before; the tables whatever the rights.
#[tactic(auto, using(crate::proofs::OpenLaws::same_state, crate::proofs::OpenLaws::same_used))]
pub fn same_opened()
    ensures state { (s v : State) (t u : List ℕ) (own : Member) (a b : Sheet)
        → filled a ≡ filled b → a.rights ≡ b.rights
        → open_refusal t own (filled a) ≡ 0 → open_refusal u own (filled b) ≡ 0
        → open_state s t own a ≡ open_state v u own b }
    ensures table { (t u : List ℕ) (own : Member) (a b : Sheet) → filled a ≡ filled b
        → open_refusal t own (filled a) ≡ 0 → open_refusal u own (filled b) ≡ 0
        → take (used_length (filled a).ceiling) (open_table t own a)
        ≡ take (used_length (filled b).ceiling) (open_table u own b) }
{}
