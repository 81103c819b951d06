//! What holds of several members' hosts, of the words that each keeps: how blocks start, and that runs were allowed by the earlier rules.

ghost use Rattle.std.specs.Prelude.{List, true, ℕ, ◌++◌, ◌∷◌, ◌≡◌};
ghost use Rattle.agreement.specs.Rules.{Block, Chain};
ghost use Rattle.terms.specs.Proposals.{Content};
ghost use Rattle.rules.specs.AnchorStarts.{StartsWithAnchor};
ghost use Rattle.nonforking.specs.Statement.{Run, chain};
ghost use Rattle.earlier.specs.Earlier.{MembersRefuseMore};
ghost use Rattle.library.specs.Lists.{engine_of};
ghost use Rattle.library.specs.Hosts.{AllTyped, Entry, Hosts, calls_in, members, words_after};
ghost use Rattle.wordclaims.specs.Members.{AllowedThen};

/// The order inside a block starts with the author of its anchor, for each block that a correct member's words tell.
pub fn starts_with_anchor()
    ensures { (X : Hosts) (l : List Entry) → AllTyped l → Run (members X) (calls_in X l) → (i : ℕ)
        → X.correct i ≡ true
        → (newer : Chain Content) (b : Block Content) (c : Chain Content)
        → chain (engine_of (words_after X l i)) ≡ newer ++ (b ∷ c)
        → StartsWithAnchor X.settings (chain (engine_of (words_after X l i))) b c }
{}

/// What members' hosts ask now, the refused calls left out, was allowed before an advance asked for a quorum, and led to the engines that their words give.
pub fn was_allowed_earlier()
    ensures { (R : MembersRefuseMore) (X : Hosts) (l : List Entry) → AllTyped l
        → Run (members X) (calls_in X l) → AllowedThen R X l }
{}
