//! Guests' serial ports: a read or a write for the guest whose port it is, and the host's own reset.
#![tactic(auto, using(hosting::proofs::Answered::result_read, hosting::proofs::Answered::port_early, hosting::proofs::Answered::port_unread, hosting::proofs::Answered::some_number), unfolding(engine::specs::Values::value_of))]

ghost use Rattle.std.specs.Prelude.{[]};
ghost use Rattle.serial.specs.Calls.{access, read, write, reset};
ghost use Rattle.refusals.specs.Refusals.{refusal_in, packed_in};
ghost use Rattle.hosting.specs.Calls.{plain, packed, Done};
ghost use Rattle.hosting.specs.HostCalls.{comes_to, port};

use refusals::Refusal;

/// Reads a register of a guest's port, 0 to 7, by its offset 0 to 7. The value is the byte.
pub(crate) fn port_read(
    state: &[u32],
    table: &mut [u32],
    guest: u32,
    offset: u32,
) -> Result<u32, Refusal>
    ensures { Done packed (comes_to state.now table.old (port (access guest (read offset))))
        (packed_in result) state.now table.new [] }
{
    serial::check_access(guest, offset)?;
    let s = words::states::state(state).ok_or(Refusal::Malformed)?;
    serial::read(&s, table, guest, offset)
}

/// Writes a byte to a register of a guest's port, 0 to 7, by its offset 0 to 7.
pub(crate) fn port_write(
    state: &[u32],
    table: &mut [u32],
    guest: u32,
    offset: u32,
    value: u8,
) -> Result<(), Refusal>
    ensures { Done plain (comes_to state.now table.old (port (access guest (write offset value))))
        (refusal_in result) state.now table.new [] }
{
    serial::check_access(guest, offset)?;
    let s = words::states::state(state).ok_or(Refusal::Malformed)?;
    serial::write(&s, table, guest, offset, value)
}

/// Resets the port of a guest, 0 to 7: its eight words of the table become 0. Only the table changes. Answers 0, or the number that refuses: 26, which comes before everything else, then 1. docs/RULES.md, "Serial ports".
#[unsafe(no_mangle)]
pub extern "C" fn forgelilac_port_reset(state: &[u32], table: &mut [u32], guest: u32) -> u32
    ensures { Done plain (comes_to state.now table.old (port (reset guest))) result
        state.now table.new [] }
{
    hosting::plain(port_reset(state, table, guest))
}

// The call, told as a result.
fn port_reset(state: &[u32], table: &mut [u32], guest: u32) -> Result<(), Refusal>
    ensures { Done plain (comes_to state.now table.old (port (reset guest))) (refusal_in result)
        state.now table.new [] }
{
    serial::check_reset(guest)?;
    let s = words::states::state(state).ok_or(Refusal::Malformed)?;
    serial::reset(&s, table, guest)
}
