//! Guests' accesses to their serial ports, of a host that owns its words: the caller's right to read, and then the access.
#![tactic(auto, using(hosting::proofs::Answered::guest_refused, hosting::proofs::Answered::guest_allowed, hosting::proofs::Answered::some_number))]

ghost use Rattle.std.specs.Prelude.{[]};
ghost use Rattle.serial.specs.Calls.{read, write};
ghost use Rattle.hosting.specs.Calls.{plain, packed, Done};
ghost use Rattle.hosting.specs.GuestForms.{comes_to_guest, access};
ghost use Rattle.owned.specs.Owned.{Owned};

use hosting::guesting;
use owned::port_calls;
use terms::rights::Right;

/// A guest reads a register of its own port, of a host that owns its words: `forgelilac_guest_port_read`, with the kept committees. Right: read.
#[unsafe(no_mangle)]
pub extern "C" fn forgelilac_owned_guest_port_read(
    caller: u32,
    state: &[u32],
    table: &mut [u32],
    kept: &[u64],
    offset: u32,
) -> u64
    requires { Owned state.now table.old kept.now }
    ensures done { Done packed (comes_to_guest state.now table.old caller (access (read offset)))
        result state.now table.new [] }
    ensures owned { Owned state.now table.new kept.now }
{
    match guesting::check(state, Right::Read, caller) {
        Ok(()) => hosting::packed(port_calls::port_read(state, table, kept, caller, offset)),
        Err(refusal) => hosting::packed(Err(refusal)),
    }
}

/// A guest writes a byte to a register of its own port, of a host that owns its words: `forgelilac_guest_port_write`, with the kept committees. Right: read.
#[unsafe(no_mangle)]
pub extern "C" fn forgelilac_owned_guest_port_write(
    caller: u32,
    state: &[u32],
    table: &mut [u32],
    kept: &[u64],
    offset: u32,
    value: u8,
) -> u32
    requires { Owned state.now table.old kept.now }
    ensures done { Done plain
        (comes_to_guest state.now table.old caller (access (write offset value))) result
        state.now table.new [] }
    ensures owned { Owned state.now table.new kept.now }
{
    match guesting::check(state, Right::Read, caller) {
        Ok(()) => hosting::plain(port_calls::port_write(state, table, kept, caller, offset, value)),
        Err(refusal) => hosting::plain(Err(refusal)),
    }
}
