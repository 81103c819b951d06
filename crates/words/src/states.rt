// A member's state as words: read, and put.

ghost use Rattle.std.specs.Prelude.{◌≡◌, if◌then◌else◌, ◌≤◌, length};
ghost use Rattle.std.proofs.Math.Seq.{paste};
ghost use Rattle.words.specs.Lengths.{state_length};
ghost use Rattle.words.specs.Words.{Narrow};
ghost use Rattle.state.specs.States.{own_body};
ghost use Rattle.words.specs.States.{state_reads, weights_in, settings_in, state_in, state_words};
ghost use Rattle.words.specs.Given.{Given};

use crate::bodies;
use crate::bodies::lengths::STATE;
use crate::places::{
    STATE_ALLOWANCE, STATE_BLOCKS, STATE_BODY, STATE_CEILING, STATE_LOOKBACK, STATE_MARGIN,
    STATE_OWN, STATE_PROPOSED, STATE_RIGHTS, STATE_ROUND, STATE_WEIGHTS,
};
use state::State;
use terms::sheet::{Rights, Settings, Weight};
use terms::{Body, Member, Round};

// The sixteen starting weights that the words give.
fn weights_in(words: &[u32]) -> [Weight; 16]
    requires { state_length ≤ length words.now }
    ensures { result ≡ weights_in words.now }
{
    std::array::from_fn(|i| Weight(words[STATE_WEIGHTS + i] as u64))
}

// The settings that the words give.
#[tactic(auto, unfolding(crate::specs::States::settings_in))]
fn settings_in(words: &[u32]) -> Settings
    requires { state_length ≤ length words.now }
    ensures { result ≡ settings_in words.now }
{
    Settings {
        lookback: words[STATE_LOOKBACK],
        ceiling: Round(words[STATE_CEILING]),
        allowance: words[STATE_ALLOWANCE],
        weights: weights_in(words),
        margin: words[STATE_MARGIN],
    }
}

/// A state, thirty-nine words. `None` where there are fewer, where the word that tells of a proposal is neither 0 nor 1, or where it says that there is a proposal and the body means none; without a proposal the body's words are not looked at.
#[tactic(auto, unfolding(crate::specs::States::state_reads, crate::specs::States::state_in, crate::specs::States::own_proposal_in))]
pub fn state(words: &[u32]) -> Option<State>
    ensures { Given (state_reads words.now) (state_in words.now) result }
{
    if words.len() < STATE {
        return None;
    }
    let proposal = match words[STATE_PROPOSED] {
        0 => None,
        1 => Some(bodies::body_at(words, STATE_BODY)?),
        _ => return None,
    };
    Some(State {
        own: Member(words[STATE_OWN]),
        settings: settings_in(words),
        round: Round(words[STATE_ROUND]),
        proposal,
        blocks: words[STATE_BLOCKS],
        rights: Rights(words[STATE_RIGHTS]),
    })
}

// The body of the proposal in a state, none where there is no proposal.
fn own_body(state: &State) -> Body
    ensures { result ≡ own_body state.now }
{
    state.proposal.unwrap_or(terms::bare_body(0))
}

// 1 for yes, 0 for no.
fn flag(yes: bool) -> u32
    ensures { result ≡ (if yes then 1 else 0) }
{
    yes as u32
}

/// Puts a state, thirty-nine words, the body's as zeros where there is no proposal: each weight must fit 32 bits.
pub fn put_state(out: &mut [u32], state: &State)
    requires { (state_length ≤ length out.old) × Narrow state.now.settings.weights }
    ensures { out.new ≡ paste out.old 0 (state_words state.now) state_length }
{
    let settings = &state.settings;
    let ceiling = settings.ceiling;
    let round = state.round;
    let head = [
        state.own.0,
        settings.lookback,
        ceiling.0,
        settings.allowance,
    ];
    bodies::stretch::put(out, STATE_OWN, &head);
    crate::put_weights(out, STATE_WEIGHTS, settings.weights);
    bodies::stretch::put(
        out,
        STATE_ROUND,
        &[round.0, flag(state.proposal.is_some()), state.blocks],
    );
    bodies::put_body(out, STATE_BODY, own_body(state));
    bodies::stretch::put(out, STATE_MARGIN, &[settings.margin, state.rights.0]);
}
