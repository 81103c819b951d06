//! Resume: the one test of all that is held, and the committees that are kept from there on.

ghost use Rattle.std.specs.Prelude.{◌≡◌, true, ◌≤◌, length};
ghost use Rattle.chain_committees.specs.Caches.{first_round, words_to};
ghost use Rattle.state.specs.Formed.{Formed};
ghost use Rattle.state.specs.Cached.{CachesFor};
ghost use Rattle.owned.specs.Testing.{Tells};
ghost use Rattle.owned.specs.Resuming.{Whole, Resumable, Filled};
ghost use Rattle.owned.specs.Owned.{Owned};

use crate::{rooted, together};
use chain_committees::cache;
use chain_committees::chain::Chain;
use state::State;
use terms::Round;

// Is the state well formed with its table, are histories whole, and do the blocks hang together?
fn is_whole(state: &State, table: &[u32]) -> bool
    ensures { Tells result (Whole state.now table.now) }
{
    if !state::well_formed(state, table) {
        return false;
    }
    if !rooted::is_rooted(table, state.settings.ceiling) {
        return false;
    }
    if !rooted::is_proposal_rooted(state, table) {
        return false;
    }
    together::is_together(Chain::new(table, &state.settings, state.blocks))
}

// Has `kept` room for the committees of all rounds up to the ceiling?
fn has_room(state: &State, kept: &[u64]) -> bool
    ensures { Tells result (words_to state.now.settings.ceiling ≤ length kept.now) }
{
    cache::words_to(state.settings.ceiling) <= kept.len()
}

// Keeps the committees of all rounds.
fn keep_all<'a>(state: &'a State, table: &'a [u32], kept: &mut [u64])
    requires formed { Formed state.now table.now }
    requires room { words_to state.now.settings.ceiling ≤ length kept.old }
    ensures begins { first_round kept.new ≡ 0 }
    ensures committees { CachesFor state.now table.now kept.new }
{
    cache::fill_cache(
        Chain::new(table, &state.settings, state.blocks),
        Round(0),
        kept,
    );
}

/// Can the words be owned? Where they can, `kept` gets the committees of all rounds, and they are owned from here on.
pub fn resume(state: &[u32], table: &[u32], kept: &mut [u64]) -> bool
    ensures answer { Tells result (Resumable state.now table.now kept.old) }
    ensures owned { result ≡ true → Owned state.now table.now kept.new }
    ensures kept { Filled state.now table.now kept.old result kept.new }
{
    let Some(s) = words::states::state(state) else {
        return false;
    };
    if !has_room(&s, kept) || !is_whole(&s, table) {
        return false;
    }
    keep_all(&s, table, kept);
    true
}
