//! Accesses to guests' serial ports and their resets, of a host that owns its words (docs/RULES.md, "Serial ports").
#![tactic(auto, using(hosting::proofs::Answered::result_read, hosting::proofs::Answered::result_unread, hosting::proofs::Answered::port_early, hosting::proofs::Answered::port_unread, hosting::proofs::Answered::some_number), unfolding(engine::specs::Values::value_of))]

ghost use Rattle.std.specs.Prelude.{◌≡◌, []};
ghost use Rattle.serial.specs.Calls.{access, read, write, reset};
ghost use Rattle.refusals.specs.Refusals.{refusal_in, packed_in};
ghost use Rattle.hosting.specs.Calls.{plain, packed, Done};
ghost use Rattle.hosting.specs.HostCalls.{comes_to, port};
ghost use Rattle.owned.specs.Owned.{Owned};

use crate::known;
use extents::Hints;
use refusals::Refusal;

/// Reads a register of a guest's port, 0 to 7, by its offset 0 to 7. The value is the byte.
pub fn port_read(
    state: &[u32],
    table: &mut [u32],
    kept: &[u64],
    guest: u32,
    offset: u32,
) -> Result<u32, Refusal>
    requires { Owned state.now table.old kept.now }
    ensures done { Done packed (comes_to state.now table.old (port (access guest (read offset))))
        (packed_in result) state.now table.new [] }
    ensures owned { Owned state.now table.new kept.now }
{
    serial::check_access(guest, offset)?;
    let Some(s) = words::states::state(state) else {
        return Err(Refusal::Malformed);
    };
    let words = known::words(&s, table, kept);
    let hints = Hints {
        cache: &kept[..words],
        together: true,
    };
    serial::read_formed(hints, &s, table, guest, offset)
}

/// Writes a byte to a register of a guest's port, 0 to 7, by its offset 0 to 7.
pub fn port_write(
    state: &[u32],
    table: &mut [u32],
    kept: &[u64],
    guest: u32,
    offset: u32,
    value: u8,
) -> Result<(), Refusal>
    requires { Owned state.now table.old kept.now }
    ensures done { Done plain
        (comes_to state.now table.old (port (access guest (write offset value))))
        (refusal_in result) state.now table.new [] }
    ensures owned { Owned state.now table.new kept.now }
{
    serial::check_access(guest, offset)?;
    let Some(s) = words::states::state(state) else {
        return Err(Refusal::Malformed);
    };
    serial::write_formed(&s, table, guest, offset, value)
}

/// The reset of a guest's port, of a host that owns its words.
pub fn port_reset(state: &[u32], table: &mut [u32], kept: &[u64], guest: u32) -> Result<(), Refusal>
    requires { Owned state.now table.old kept.now }
    ensures done { Done plain (comes_to state.now table.old (port (reset guest)))
        (refusal_in result) state.now table.new [] }
    ensures owned { Owned state.now table.new kept.now }
{
    serial::check_reset(guest)?;
    let Some(s) = words::states::state(state) else {
        return Err(Refusal::Malformed);
    };
    serial::reset_formed(&s, table, guest)
}
