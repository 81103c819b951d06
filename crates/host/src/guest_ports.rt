//! Guests' accesses to their serial ports: the caller's right to read, and then the access.
#![tactic(auto, using(hosting::proofs::Answered::guest_refused, hosting::proofs::Answered::guest_allowed, hosting::proofs::Answered::some_number))]

ghost use Rattle.std.specs.Prelude.{[]};
ghost use Rattle.serial.specs.Calls.{read, write};
ghost use Rattle.hosting.specs.Calls.{plain, packed, Done};
ghost use Rattle.hosting.specs.GuestForms.{comes_to_guest, access};

use hosting::guesting;
use terms::rights::Right;

/// A guest reads a register of its own port, by its offset 0 to 7. The low half of the answer is the byte, the high half the number that refuses, 0 for none: 26 for a caller above 7, 29 without the right to read, 31 for an offset above 7, then 1. A read at offset 0 that takes a byte changes two words of the table, no other read changes a word. docs/RULES.md, "Serial ports".
#[unsafe(no_mangle)]
pub extern "C" fn forgelilac_guest_port_read(
    caller: u32,
    state: &[u32],
    table: &mut [u32],
    offset: u32,
) -> u64
    ensures { Done packed (comes_to_guest state.now table.old caller (access (read offset))) result
        state.now table.new [] }
{
    match guesting::check(state, Right::Read, caller) {
        Ok(()) => hosting::packed(crate::port_calls::port_read(state, table, caller, offset)),
        Err(refusal) => hosting::packed(Err(refusal)),
    }
}

/// A guest writes a byte to a register of its own port, by its offset 0 to 7. At most one word of the table changes. Answers 0, or the number that refuses: 26 for a caller above 7, 29 without the right to read, 31 for an offset above 7, then 1. docs/RULES.md, "Serial ports".
#[unsafe(no_mangle)]
pub extern "C" fn forgelilac_guest_port_write(
    caller: u32,
    state: &[u32],
    table: &mut [u32],
    offset: u32,
    value: u8,
) -> u32
    ensures { Done plain (comes_to_guest state.now table.old caller (access (write offset value)))
        result state.now table.new [] }
{
    match guesting::check(state, Right::Read, caller) {
        Ok(()) => hosting::plain(crate::port_calls::port_write(
            state, table, caller, offset, value,
        )),
        Err(refusal) => hosting::plain(Err(refusal)),
    }
}
