//! What stays in the words that hosts keep: states well formed, blocks, and certificates with their endorsers.

ghost use Rattle.std.specs.Prelude.{List, true, ℕ, ◌++◌, ◌≡◌, ◌≤◌, Some};
ghost use Rattle.agreement.specs.Prefixes.{block_numbered};
ghost use Rattle.agreement.specs.Rules.{Block, Chain};
ghost use Rattle.terms.specs.Proposals.{Content};
ghost use Rattle.state.specs.WellFormed.{well_formed};
ghost use Rattle.nonforking.specs.Statement.{chain};
ghost use Rattle.nonforking.specs.Stored.{Holds};
ghost use Rattle.library.specs.Calls.{LibraryCall};
ghost use Rattle.library.specs.Lists.{AllTyped, Opening, after_list, after_opening, engine_of};
ghost use Rattle.wordclaims.specs.Claims.{NoOpens, TookSince, left_after};

/// All words that the library leaves give a well-formed state with its table, whoever signed.
#[tactic(auto, using(crate::proofs::StaysLaws::states_formed))]
pub fn states_formed()
    ensures { (x : Opening) (l : List LibraryCall) → AllTyped l
        → well_formed (engine_of (left_after x l)).state (engine_of (left_after x l)).table ≡ true }
{}

/// A block once made stays, whoever signed: whatever calls of hosts and guests follow, batches among them, as long as no open is accepted, the chain that the words tell is the one of before with newer blocks, or none, and each block keeps its number, its round and its certificates.
pub fn blocks_stay()
    ensures grown { (x : Opening) (l m : List LibraryCall)
        → AllTyped l → AllTyped m → NoOpens (left_after x l) m
        → (newer : Chain Content)
        × (chain (engine_of (after_list (left_after x l) m))
        ≡ newer ++ chain (engine_of (left_after x l))) }
    ensures kept { (x : Opening) (l m : List LibraryCall) → AllTyped l → AllTyped m
        → NoOpens (left_after x l) m → (n : ℕ) (b : Block Content)
        → block_numbered (chain (engine_of (left_after x l))) n ≡ Some b
        → block_numbered (chain (engine_of (after_list (left_after x l) m))) n ≡ Some b }
{}

/// A certificate that the table holds stays held, with its proposal and its endorsers, whatever calls follow, as long as no open is accepted.
pub fn certificate_stays()
    ensures { (x : Opening) (l m : List LibraryCall) → AllTyped l → AllTyped m
        → NoOpens (left_after x l) m → (a r : ℕ) (p : Content) (d : ℕ)
        → Holds (left_after x l).table a r p d
        → Holds (after_list (left_after x l) m).table a r p d }
{}

/// What an accepted certify or accept took since the last accepted open, alone, for a guest or in a batch, the table holds, with the endorsers that it took it with.
pub fn stored_held()
    ensures { (x : Opening) (l : List LibraryCall) → AllTyped l → (p : Content) (d : ℕ)
        → TookSince (after_opening x) l p d → Holds (left_after x l).table p.author p.round p d }
{}

/// What the table holds an accepted certify or accept took since the last accepted open, with those endorsers.
pub fn held_stored()
    ensures { (x : Opening) (l : List LibraryCall) → AllTyped l → (a r : ℕ) (p : Content) (d : ℕ)
        → r ≤ (engine_of (left_after x l)).state.settings.ceiling
        → Holds (left_after x l).table a r p d → TookSince (after_opening x) l p d }
{}
