//! The certificates that a commit hangs on.
//!
//! Held ones whose absence alone would turn the commit into a refusal, by round, then author (specs/Critical). The table is lent for writing and is afterwards as it was. docs/RULES.md, "What a commit hangs on".
#![tactic(auto)]

ghost use Rattle.std.specs.Prelude.{◌≡◌, ◌+◌, ◌≤◌, [], ◌∷◌, length, IfOk, not, ◌==◌};
ghost use Rattle.std.proofs.lemmas.List.Edits.{sets};
ghost use Rattle.base.specs.Puts.{Puts};
ghost use Rattle.base.specs.Checks.{refusal};
ghost use Rattle.refusals.specs.Refusals.{refusal_in};
ghost use Rattle.store.specs.Table.{Within, mark_at};
ghost use Rattle.votes.specs.Ready.{AnchorLed};
ghost use Rattle.critical.specs.Critical.{place_words, refusal_without, is_critical, critical_in, critical_places, critical_refusal, critical_list, late_checks};
ghost use Rattle.critical.specs.Answers.{InTime, Passes, Polls, MayLack, Weighs, Near, InView, Free};

use committee::committees::Committee;
use member_view::View;
use refusals::Refusal;
use state::State;
use store::writes;
use terms::sheet::Weight;
use terms::{Member, Round};
use votes::{checks, counting};

/// What a commit goes by after the checks of time: what those of the votes answer; the leader of the round before, 16 for none; and the committee of the present round.
#[derive(Debug, Clone, Copy)]
pub(crate) struct Polled {
    pub answer: Result<(), Refusal>,
    pub leader: Member,
    pub committee: Committee,
}

/// What an accepted commit is weighed by.
#[derive(Debug, Clone, Copy)]
pub struct Weighed {
    /// The leader of the round before the present one.
    pub leader: Member,
    /// The committee of the present round.
    pub committee: Committee,
    /// The fault bound of that committee.
    pub bound: Weight,
    /// The weight of the present round's votes for the leader's certificate.
    pub votes: Weight,
}

impl Weighed {
    /// What the commit of a state that passes its checks is weighed by, where `leader` is the leader of the round before and `committee` that of the present one.
    #[tactic(auto, using(crate::proofs::LackLaws::votes_ready))]
    pub fn new(state: &State, table: &[u32], leader: Member, committee: Committee) -> Weighed
        requires passes { Passes state.now table.now }
        requires anchor { AnchorLed state.now table.now leader.0 committee }
        ensures { Weighs state.now table.now result }
    {
        let votes = counting::votes_for(table, &committee.weights, state.round, leader);
        Weighed {
            leader,
            committee,
            bound: committee.bound(),
            votes,
        }
    }
}

// Checks 21, 22, and what they go by. The leaders are worked out here and nowhere else, so that their memory is in use once at a time.
fn poll(state: &State, table: &[u32]) -> Polled
    requires { InTime state.now table.now }
    ensures { Polls state.now table.now result }
{
    let mut leaders = [16u8; 1025];
    let committee = checks::fill_leaders(state, table, &mut leaders);
    let answer = checks::check_votes(state, table, &leaders, &committee);
    let round = state.round;
    Polled {
        answer,
        leader: Member(leaders[round.0 as usize - 1] as u32),
        committee,
    }
}

// What the checks of the votes would answer, were the certificate of a place absent; the table is afterwards as it was.
fn answer_without(
    state: &State,
    table: &mut [u32],
    author: Member,
    round: Round,
) -> Result<(), Refusal>
    requires { MayLack state.now table.old author.0 round }
    ensures { (refusal_in result ≡ refusal_without state.now table.old author.0 round)
        × (table.new ≡ table.old) }
{
    let held = store::held_set(table, round);
    let left = base::remove(held, author.0);
    writes::set_held(table, round, left);
    let polled = poll(state, table);
    writes::set_held(table, round, held);
    polled.answer
}

// Of a certificate that is held and in no block: is it the anchor, or a vote without which the others weigh not more than the bound? One that is no vote adds nothing to them.
fn is_pivotal(state: &State, table: &[u32], weighed: &Weighed, author: Member, round: Round) -> bool
    requires { Weighs state.now table.now weighed.now
        × (InView state.now author.0 round × Free table.now author.0 round) }
    ensures { result ≡ is_critical state.now table.now author.0 round }
{
    let now = state.round;
    if round.0 == now.0 {
        let weights = &weighed.committee.weights;
        let vote = counting::vote_of(table, weights, round, weighed.leader, author);
        weighed.votes.0 - vote.0 <= weighed.bound.0
    } else {
        author.0 == weighed.leader.0
    }
}

// Is the certificate of a place in a block?
fn is_in_block(table: &[u32], author: Member, round: Round) -> bool
    requires { Within table.now author.0 round }
    ensures { result ≡ not (mark_at table.now author.0 round == 0) }
{
    store::record::mark(table, author, round) != 0
}

// Does the commit hang on the certificate of a place?
#[tactic(auto, using(crate::proofs::LackLaws::place, crate::proofs::LackLaws::may, crate::proofs::LackLaws::absent_critical, crate::proofs::LackLaws::held_critical, crate::proofs::AnswerLaws::err_number))]
fn is_critical(
    state: &State,
    table: &mut [u32],
    weighed: &Weighed,
    author: Member,
    round: Round,
) -> bool
    requires weighs { Weighs state.now table.old weighed.now }
    requires place { InView state.now author.0 round }
    ensures critical { result ≡ is_critical state.now table.old author.0 round }
    ensures table { table.new ≡ table.old }
{
    if !store::held(table, author, round) {
        return false;
    }
    if is_in_block(table, author, round) {
        answer_without(state, table, author, round).is_err()
    } else {
        is_pivotal(state, table, weighed, author, round)
    }
}

// One place.
#[tactic(auto, using(crate::proofs::PlaceLaws::place_put))]
fn put_place(list: &mut [u32], at: usize, author: Member, round: Round) -> usize
    requires { at + 2 ≤ length list.old }
    ensures { Puts list.old list.new at result (round ∷ author.0 ∷ []) 2 }
{
    list[at] = round.0;
    list[at + 1] = author.0;
    at + 2
}

// Those of `round` that the commit hangs on.
fn list_row(
    state: &State,
    table: &mut [u32],
    weighed: &Weighed,
    round: Round,
    list: &mut [u32],
    at: usize,
) -> usize
    requires { Weighs state.now table.old weighed.now
        × (Near state.now round × (at + 32 ≤ length list.old)) }
    ensures { (table.new ≡ table.old)
        × Puts list.old list.new at result
        (place_words (critical_in state.now table.old round 16)) 32 }
{
    let mut to = at;
    for i in 0..16u32 {
        if is_critical(state, table, weighed, Member(i), round) {
            to = put_place(list, to, Member(i), round);
        }
    }
    to
}

/// Lists the places of both rounds whose certificates the commit hangs on, the round before first; their number.
pub fn list_places(state: &State, table: &mut [u32], weighed: &Weighed, list: &mut [u32]) -> u32
    requires { Weighs state.now table.old weighed.now × (64 ≤ length list.old) }
    ensures number { result ≡ length (critical_places state.now table.old) }
    ensures table { table.new ≡ table.old }
    ensures list { list.new ≡ sets list.old 0 (place_words (critical_places state.now table.old)) }
{
    let round = state.round;
    let before = Round(round.0 - 1);
    let row = list_row(state, table, weighed, before, list, 0);
    let put = list_row(state, table, weighed, round, list, row);
    (put / 2) as u32
}

// The checks of a well-formed state before the votes: 25, 19, 20, 8; the list has so many words.
#[tactic(auto, unfolding(base::specs::Checks::refusal))]
fn check(view: &View, words: usize) -> Result<(), Refusal>
    ensures { refusal_in result
        ≡ refusal (late_checks view.now.state.now view.now.table.now words) }
{
    if words / 2 < 32 {
        return Err(Refusal::LengthRange);
    }
    checks::check_time(view)
}

/// Lists the certificates that a commit hangs on, of the round before and of the present round, by round, then author; the value is their number. The list needs 32 places, of two words each: round and author.
///
/// The table is lent for writing, and is afterwards as it was: a certificate in a block is tried with its bit cleared, and the bit set again.
#[tactic(auto, using(crate::proofs::AnswerLaws::votes_decide), unfolding(base::specs::Checks::refusal, state::specs::Answers::if_accepted, crate::specs::Critical::critical_refusal, crate::specs::Critical::critical_list))]
pub fn critical(state: &State, table: &mut [u32], list: &mut [u32]) -> Result<u32, Refusal>
    ensures refusal { refusal_in result ≡ critical_refusal state.now table.old (length list.old) }
    ensures value { IfOk result (λ n. n ≡ length (critical_places state.now table.old)) }
    ensures table { table.new ≡ table.old }
    ensures list { list.new ≡ critical_list state.now table.old list.old }
{
    let words = list.len();
    let view = View::known(state::well_formed(state, table), &[], state, table)?;
    check(&view, words)?;
    checks::check_early(&view)?;
    let polled = poll(state, table);
    polled.answer?;
    let weighed = Weighed::new(state, table, polled.leader, polled.committee);
    Ok(list_places(state, table, &weighed, list))
}
