//! The calls on guests' queues and ports of a host that owns its words: enqueue, draw, the reset of a port.

ghost use Rattle.std.specs.Prelude.{[]};
ghost use Rattle.serial.specs.Calls.{reset};
ghost use Rattle.hosting.specs.Calls.{plain, Done};
ghost use Rattle.hosting.specs.HostCalls.{comes_to, enqueue, draw, port};
ghost use Rattle.owned.specs.Owned.{Owned};

use owned::{port_calls, queue_calls};

/// Enqueue, of a host that owns its words: `forgelilac_enqueue`, with the kept committees.
#[unsafe(no_mangle)]
pub extern "C" fn forgelilac_owned_enqueue(
    state: &[u32],
    table: &mut [u32],
    kept: &[u64],
    guest: u32,
    transaction: &[u32],
) -> u32
    requires { Owned state.now table.old kept.now }
    ensures done { Done plain (comes_to state.now table.old (enqueue guest transaction.now)) result
        state.now table.new [] }
    ensures owned { Owned state.now table.new kept.now }
{
    hosting::plain(queue_calls::enqueue(state, table, kept, guest, transaction))
}

/// Draw, of a host that owns its words: `forgelilac_draw`, with the kept committees.
#[unsafe(no_mangle)]
pub extern "C" fn forgelilac_owned_draw(
    state: &mut [u32],
    table: &mut [u32],
    kept: &[u64],
    previous: u32,
) -> u32
    requires { Owned state.old table.old kept.now }
    ensures done { Done plain (comes_to state.old table.old (draw previous)) result
        state.new table.new [] }
    ensures owned { Owned state.new table.new kept.now }
{
    hosting::plain(queue_calls::draw(state, table, kept, previous))
}

/// The reset of a guest's port, of a host that owns its words: `forgelilac_port_reset`, with the kept committees.
#[unsafe(no_mangle)]
pub extern "C" fn forgelilac_owned_port_reset(
    state: &[u32],
    table: &mut [u32],
    kept: &[u64],
    guest: u32,
) -> u32
    requires { Owned state.now table.old kept.now }
    ensures done { Done plain (comes_to state.now table.old (port (reset guest))) result
        state.now table.new [] }
    ensures owned { Owned state.now table.new kept.now }
{
    hosting::plain(port_calls::port_reset(state, table, kept, guest))
}
