//! What is cached beside the state, after the calls that change it.

ghost use Rattle.std.specs.Prelude.{◌≡◌, ◌<◌};
ghost use Rattle.std.specs.Option.{unwrap_or};
ghost use Rattle.state.specs.States.{no_body};
ghost use Rattle.state.specs.Cached.{Cached};
ghost use Rattle.state.specs.WellFormed.{well_formed};

use chain_committees::cache;
use chain_committees::chain::Chain;
use state::State;
use terms::{Body, Round};

/// Caches committees anew from round 0 on, as far as there is room, where the state is well formed.
pub fn renew(formed: bool, state: &State, table: &[u32], cache: &mut [u64])
    requires { formed ≡ well_formed state.now table.now }
    ensures { Cached state.now table.now formed cache.new }
{
    if formed {
        let chain = Chain::new(table, &state.settings, state.blocks);
        cache::fill_cache(chain, Round(0), cache);
    }
}

// A set of members is below 65536: this says what the type says.
fn set_fits(set: u16)
    ensures { set < 65536 }
{}

/// A proposal's previous set is a 16-bit number: this does nothing, and says what the type says.
pub fn previous_fits(proposal: Option<Body>)
    ensures { (unwrap_or proposal no_body).previous < 65536 }
{
    if let Some(body) = proposal {
        set_fits(body.previous);
    }
}
