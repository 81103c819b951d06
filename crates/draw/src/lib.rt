//! Draw: what waits in guests' queues is proposed.
//!
//! It is the propose of what is drawn (specs/Draw); the drawn transactions leave their queues where that is accepted, and only then. docs/RULES.md, "Guests' queues".
#![tactic(auto)]

pub mod theorems;

ghost use Rattle.std.specs.Prelude.{◌≡◌, true};
ghost use Rattle.refusals.specs.Refusals.{refusal_in};
ghost use Rattle.state.specs.Cached.{Cached};
ghost use Rattle.draw.specs.Draw.{draw_refusal, draw_state, draw_table};

use queues::drawing;
use refusals::Refusal;
use state::State;
use store::lengths::ROW;

/// The call, where the state is well formed and committees may be cached. The draw is made on a copy of row 0, which is put in its place where the proposal is accepted: nothing leaves its queue before.
#[tactic(auto, unfolding(base::specs::Checks::refusal, state::specs::Refusals::refusal_of, state::specs::Answers::if_accepted, propose::specs::Propose::propose_refusal, propose::specs::Propose::propose_state, crate::specs::Draw::drawn_body, crate::specs::Draw::draw_refusal, crate::specs::Draw::draw_state, crate::specs::Draw::draw_table))]
pub fn draw_formed(
    cache: &[u64],
    state: &mut State,
    table: &mut [u32],
    previous: u16,
) -> Result<(), Refusal>
    requires { Cached state.old table.old true cache.now }
    ensures refusal { refusal_in result ≡ draw_refusal state.old table.old previous }
    ensures state { state.new ≡ draw_state state.old table.old previous }
    ensures table { table.new ≡ draw_table state.old table.old previous }
{
    let mut row = [0u32; ROW];
    let body = drawing::drawn_body(table, state.settings.allowance, previous, &mut row);
    propose::propose_cached(true, cache, state, table, body)?;
    drawing::put_first_row(table, &row);
    Ok(())
}

/// Keeps a proposal of what waits in guests' queues.
#[tactic(auto, unfolding(base::specs::Checks::refusal, state::specs::Refusals::refusal_of, state::specs::Answers::if_accepted, propose::specs::Propose::propose_refusal, propose::specs::Propose::propose_state, crate::specs::Draw::drawn_body, crate::specs::Draw::draw_refusal, crate::specs::Draw::draw_state, crate::specs::Draw::draw_table))]
pub fn draw(state: &mut State, table: &mut [u32], previous: u16) -> Result<(), Refusal>
    ensures refusal { refusal_in result ≡ draw_refusal state.old table.old previous }
    ensures state { state.new ≡ draw_state state.old table.old previous }
    ensures table { table.new ≡ draw_table state.old table.old previous }
{
    if !state::well_formed(state, table) {
        return Err(Refusal::Malformed);
    }
    draw_formed(&[], state, table, previous)
}
