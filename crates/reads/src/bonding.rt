//! The read of what a bond would do to all sixteen shares. It changes nothing.

ghost use Rattle.std.specs.Prelude.{◌≡◌, IfOk};
ghost use Rattle.rules.specs.Reads.{effect_read};
ghost use Rattle.state.specs.View.{view};
ghost use Rattle.refusals.specs.Refusals.{refusal_in};
ghost use Rattle.member_view.specs.Views.{settings_of, shown};
ghost use Rattle.reads.specs.Reads.{effect_refusal};

use committee::effects::{self, Effect};
use member_view::View;
use refusals::Refusal;
use state::State;
use terms::{Member, Round};

/// Sixteen shares before and after a bond of the member by an amount, and the largest difference, of a state that is known to be well formed. Checks 4, 5, 6, 8 and 30, in this order.
#[tactic(auto, unfolding(base::specs::Checks::refusal, crate::specs::Reads::effect_refusal))]
pub fn effect_of(view: &View, member: Member, round: Round, amount: u32) -> Result<Effect, Refusal>
    ensures refusal { refusal_in result
        ≡ effect_refusal view.now.state.now view.now.table.now member.0 round amount }
    ensures value { IfOk result (λ x. x ≡ effect_read (settings_of view.now) (shown view.now)
        member.0 round amount) }
{
    if 15 < member.0 {
        return Err(Refusal::MemberRange);
    }
    if view.is_bad_round(round) {
        return Err(Refusal::RoundRange);
    }
    if !terms::amount_in_range(amount) {
        return Err(Refusal::TransactionsRange);
    }
    if view.is_unknown(round) {
        return Err(Refusal::CommitteeUnknown);
    }
    let committee = view.committee(round);
    let total = committee.total();
    if total.0 == 0 {
        return Err(Refusal::EmptyCommittee);
    }
    Ok(effects::bond_effect(committee.weights, total, member, amount))
}

/// Sixteen shares before and after a bond of the member by an amount, 1 to 1,000, and the largest difference. Checks 1, 4, 5, 6, 8 and 30, in this order.
#[tactic(auto, unfolding(base::specs::Checks::refusal, crate::specs::Reads::effect_refusal))]
pub fn effect(
    state: &State,
    table: &[u32],
    member: Member,
    round: Round,
    amount: u32,
) -> Result<Effect, Refusal>
    ensures refusal { refusal_in result
        ≡ effect_refusal state.now table.now member.0 round amount }
    ensures value { IfOk result (λ x. x ≡ effect_read state.now.settings (view state.now table.now)
        member.0 round amount) }
{
    effect_of(
        &View::known(state::well_formed(state, table), &[], state, table)?,
        member,
        round,
        amount,
    )
}
