// What guests may do: four rights of callers 0 to 7, fixed at opening (docs/RULES.md, "Rights").

ghost use Rattle.std.specs.Prelude.{◌≡◌, ◌<◌};
ghost use Rattle.terms.specs.Rights.{right_number, may};

use crate::sheet::Rights;

/// What a caller may do, by the kinds of calls.
#[derive(Debug, Clone, Copy)]
pub enum Right {
    /// Propose, draw, and add to one's own queue.
    Propose,
    /// Endorse, certify, accept, and hand in batches.
    Sign,
    /// Advance and commit.
    Drive,
    /// Reads, previews, lists, and accesses to one's own serial port.
    Read,
}

// Where the callers of a right start in the word of rights, in bytes.
fn right_number(right: Right) -> u32
    ensures { result ≡ right_number right }
{
    match right {
        Right::Propose => 0,
        Right::Sign => 1,
        Right::Drive => 2,
        Right::Read => 3,
    }
}

/// Has the caller, 0 to 7, the right?
#[tactic(auto, using(crate::proofs::RightLaws::four), unfolding(crate::specs::Rights::may, base::specs::Sets::mem))]
pub fn has_right(rights: Rights, right: Right, caller: u32) -> bool
    requires { caller < 8 }
    ensures { result ≡ may rights right caller }
{
    (rights.0 >> (8 * right_number(right) + caller)) % 2 == 1
}
