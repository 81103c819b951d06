//! Accesses to guests' serial ports, and their resets.
//!
//! On a state and its table: the number that refuses, the byte that is read, and the words of the one port that change (specs/Calls, specs/Serial). docs/RULES.md, "Serial ports".
#![tactic(auto)]

ghost use Rattle.std.specs.Prelude.{◌≡◌, true, IfOk};
ghost use Rattle.base.specs.Checks.{refusal};
ghost use Rattle.extents.specs.Together.{Together};
ghost use Rattle.refusals.specs.Refusals.{refusal_in};
ghost use Rattle.state.specs.Cached.{Cached};
ghost use Rattle.state.specs.WellFormed.{well_formed};
ghost use Rattle.serial.specs.Calls.{access, reset, read, write};
ghost use Rattle.serial.specs.Serial.{access_checks, reset_checks, port_refusal, port_table, register};

use extents::Hints;
use ports::registers;
use refusals::Refusal;
use state::State;

/// Checks 26 and 31 of an access, which come before all others.
#[tactic(auto, unfolding(base::specs::Checks::refusal))]
pub fn check_access(port: u32, offset: u32) -> Result<(), Refusal>
    ensures { refusal_in result ≡ refusal (access_checks port offset) }
{
    if 7 < port {
        return Err(Refusal::GuestRange);
    }
    if 7 < offset {
        return Err(Refusal::OffsetRange);
    }
    Ok(())
}

/// Check 26 of a reset, which comes before all others.
#[tactic(auto, unfolding(base::specs::Checks::refusal))]
pub fn check_reset(port: u32) -> Result<(), Refusal>
    ensures { refusal_in result ≡ refusal (reset_checks port) }
{
    if 7 < port {
        return Err(Refusal::GuestRange);
    }
    Ok(())
}

/// A read of a port at an offset, where the state is well formed; hints may tell committees of its rounds, and that its blocks hang together.
#[tactic(auto, unfolding(base::specs::Checks::refusal, state::specs::Answers::if_accepted, crate::specs::Serial::port_refusal, crate::specs::Serial::register, crate::specs::Serial::ported_table, crate::specs::Serial::port_table))]
pub fn read_formed(
    hints: Hints,
    state: &State,
    table: &mut [u32],
    port: u32,
    offset: u32,
) -> Result<u32, Refusal>
    requires cached { Cached state.now table.old true hints.cache.now }
    requires together { hints.together ≡ true
        → Together state.now.settings.ceiling table.old state.now.blocks }
    ensures refusal { refusal_in result
        ≡ port_refusal state.now table.old (access port (read offset)) }
    ensures value { IfOk result (λ v. v ≡ register state.now table.old port offset) }
    ensures table { table.new ≡ port_table state.now table.old (access port (read offset)) }
{
    check_access(port, offset)?;
    let settings = &state.settings;
    Ok(registers::read(hints, table, settings, state.blocks, port, offset))
}

/// A write of a byte there, where the state is well formed.
#[tactic(auto, using(crate::proofs::PassedLaws::ported), unfolding(base::specs::Checks::refusal, state::specs::Answers::if_accepted, crate::specs::Serial::port_refusal, crate::specs::Serial::ported_table, crate::specs::Serial::port_table))]
pub fn write_formed(
    state: &State,
    table: &mut [u32],
    port: u32,
    offset: u32,
    byte: u8,
) -> Result<(), Refusal>
    requires { well_formed state.now table.old ≡ true }
    ensures refusal { refusal_in result
        ≡ port_refusal state.now table.old (access port (write offset byte)) }
    ensures table { table.new ≡ port_table state.now table.old (access port (write offset byte)) }
{
    check_access(port, offset)?;
    registers::write(table, port, offset, byte);
    Ok(())
}

/// A reset, where the state is well formed: every held register is 0, and reading resumes at the listing's start.
#[tactic(auto, using(crate::proofs::PassedLaws::ported), unfolding(base::specs::Checks::refusal, state::specs::Answers::if_accepted, crate::specs::Serial::port_refusal, crate::specs::Serial::ported_table, crate::specs::Serial::port_table))]
pub fn reset_formed(state: &State, table: &mut [u32], port: u32) -> Result<(), Refusal>
    requires { well_formed state.now table.old ≡ true }
    ensures refusal { refusal_in result ≡ port_refusal state.now table.old (reset port) }
    ensures table { table.new ≡ port_table state.now table.old (reset port) }
{
    check_reset(port)?;
    registers::reset(table, port);
    Ok(())
}

/// A read of a port at an offset.
#[tactic(auto, unfolding(base::specs::Checks::refusal, state::specs::Answers::if_accepted, crate::specs::Serial::port_refusal, crate::specs::Serial::register, crate::specs::Serial::ported_table, crate::specs::Serial::port_table))]
pub fn read(state: &State, table: &mut [u32], port: u32, offset: u32) -> Result<u32, Refusal>
    ensures refusal { refusal_in result
        ≡ port_refusal state.now table.old (access port (read offset)) }
    ensures value { IfOk result (λ v. v ≡ register state.now table.old port offset) }
    ensures table { table.new ≡ port_table state.now table.old (access port (read offset)) }
{
    check_access(port, offset)?;
    if !state::well_formed(state, table) {
        return Err(Refusal::Malformed);
    }
    read_formed(extents::NONE, state, table, port, offset)
}

/// A write of a byte there.
#[tactic(auto, using(crate::proofs::PassedLaws::ported), unfolding(base::specs::Checks::refusal, state::specs::Answers::if_accepted, crate::specs::Serial::port_refusal, crate::specs::Serial::ported_table, crate::specs::Serial::port_table))]
pub fn write(
    state: &State,
    table: &mut [u32],
    port: u32,
    offset: u32,
    byte: u8,
) -> Result<(), Refusal>
    ensures refusal { refusal_in result
        ≡ port_refusal state.now table.old (access port (write offset byte)) }
    ensures table { table.new ≡ port_table state.now table.old (access port (write offset byte)) }
{
    check_access(port, offset)?;
    if !state::well_formed(state, table) {
        return Err(Refusal::Malformed);
    }
    write_formed(state, table, port, offset, byte)
}

/// A reset: every held register is 0, and reading resumes at the listing's start.
#[tactic(auto, using(crate::proofs::PassedLaws::ported), unfolding(base::specs::Checks::refusal, state::specs::Answers::if_accepted, crate::specs::Serial::port_refusal, crate::specs::Serial::ported_table, crate::specs::Serial::port_table))]
pub fn reset(state: &State, table: &mut [u32], port: u32) -> Result<(), Refusal>
    ensures refusal { refusal_in result ≡ port_refusal state.now table.old (reset port) }
    ensures table { table.new ≡ port_table state.now table.old (reset port) }
{
    check_reset(port)?;
    if !state::well_formed(state, table) {
        return Err(Refusal::Malformed);
    }
    reset_formed(state, table, port)
}
