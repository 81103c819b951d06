//! When two certificates are the same, and how many rights there are.

ghost use Rattle.std.specs.Prelude.{true, ◌<◌, ◌≡◌};
ghost use Rattle.terms.specs.Proposals.{Content, same_proposal};
ghost use Rattle.terms.specs.Rights.{right_number};
ghost use Rattle.terms.specs.declared.rights.Right.{Right};

/// Two certificates are the same exactly when their proposals are equal, whoever endorsed.
pub fn same_when_equal()
    ensures equal { (p q : Content) → same_proposal p q ≡ true → p ≡ q }
    ensures itself { (p : Content) → same_proposal p p ≡ true }
{}

/// There are four rights: each has a number below 4, and no two have the same.
#[tactic(auto, using(crate::proofs::RightLaws::four, crate::proofs::RightLaws::same_right))]
pub fn four_rights()
    ensures below { (r : Right) → right_number r < 4 }
    ensures apart { (r q : Right) → right_number r ≡ right_number q → r ≡ q }
{}
