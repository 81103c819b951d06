// A guest's call over words: its caller's right, read from the state's words before anything else is looked at.

ghost use Rattle.std.specs.Prelude.{◌≡◌};
ghost use Rattle.terms.specs.Rights.{caller_refusal};
ghost use Rattle.refusals.specs.Refusals.{refusal_in};
ghost use Rattle.hosting.specs.Guested.{rights_in};

use refusals::Refusal;
use terms::rights;
use terms::rights::Right;
use terms::sheet::Rights;
use words::places::STATE_RIGHTS;

// The rights that the words of a state give, well formed or not; too few words give nobody a right.
fn rights_in(state: &[u32]) -> Rights
    ensures { result ≡ rights_in state.now }
{
    Rights(state.get(STATE_RIGHTS).copied().unwrap_or(0))
}

/// Is the caller 0 to 7, and has it the right? Refused with 26 where it is above 7, and with 29 where it has not.
#[tactic(auto, unfolding(base::specs::Checks::refusal, terms::specs::Rights::caller_refusal))]
pub fn check(state: &[u32], right: Right, caller: u32) -> Result<(), Refusal>
    ensures { refusal_in result ≡ caller_refusal (rights_in state.now) right caller }
{
    if 7 < caller {
        return Err(Refusal::GuestRange);
    }
    if !rights::has_right(rights_in(state), right, caller) {
        return Err(Refusal::NoRight);
    }
    Ok(())
}
