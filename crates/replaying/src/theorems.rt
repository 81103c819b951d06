//! Words are of at most one list of calls, and bytes come to at most one outcome.

ghost use Rattle.std.specs.Prelude.{◌≡◌, [], List, ℕ};
ghost use Rattle.replaying.specs.declared.calls.Entry.{Entry};
ghost use Rattle.replaying.specs.declared.heads.Head.{Head};
ghost use Rattle.replaying.specs.Lists.{Listed};
ghost use Rattle.replaying.specs.Runs.{newest};
ghost use Rattle.replaying.specs.Replays.{Told, Untold};
ghost use Rattle.replaying.specs.declared.failure.Failure.TheVariants.{Damaged, Refused};

/// Words are those of one list alone: two lists that have them have one head, and the same calls of the same members, one after another.
#[tactic(auto, using(crate::proofs::OneListLaws::same_head, crate::proofs::OneListLaws::same_list))]
pub fn read_once()
    ensures head { (w : List ℕ) (h g : Head) (l m : List Entry) → Listed w h l → Listed w g m
        → h ≡ g }
    ensures calls { (w : List ℕ) (h g : Head) (l m : List Entry) → Listed w h l → Listed w g m
        → newest l [] ≡ newest m [] }
{}

/// Bytes come to at most one outcome, want of memory aside: what is told of them is one; bytes of which something is told are neither damaged nor refused by a number; damaged ones are refused by none, and others by one.
pub fn served_once()
    ensures told { (b t u : List ℕ) → Told b t → Told b u → t ≡ u }
    ensures undamaged { (b t : List ℕ) → Told b t → Untold b Damaged → ⊥ }
    ensures unrefused { (b t : List ℕ) (n : ℕ) → Told b t → Untold b (Refused n) → ⊥ }
    ensures reason { (b : List ℕ) (n : ℕ) → Untold b Damaged → Untold b (Refused n) → ⊥ }
    ensures number { (b : List ℕ) (n m : ℕ) → Untold b (Refused n) → Untold b (Refused m)
        → n ≡ m }
{}
