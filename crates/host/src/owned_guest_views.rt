//! What guests read of a host that owns its words, each with the right to read: the caller's right, and then the owner's own read. Parameters are those of include/forgelilac.h, as many as they are.
#![tactic(auto, using(hosting::proofs::Answered::guest_refused, hosting::proofs::Answered::guest_allowed, hosting::proofs::Answered::some_number))]

ghost use Rattle.std.specs.Prelude.{[], length};
ghost use Rattle.engine.specs.Calls.{committee, share, effect, certificate, block, preview, critical, blocks};
ghost use Rattle.hosting.specs.Calls.{plain, packed, Done};
ghost use Rattle.hosting.specs.GuestForms.{comes_to_guest, aside};
ghost use Rattle.owned.specs.Owned.{Owned};

use hosting::guesting;
use terms::rights::Right;

/// A guest's read, of a host that owns its words: `forgelilac_guest_committee`, with the kept committees. Right: read.
#[unsafe(no_mangle)]
pub extern "C" fn forgelilac_owned_guest_committee(
    caller: u32,
    state: &[u32],
    table: &[u32],
    kept: &[u64],
    round: u32,
    out: &mut [u32],
) -> u32
    requires { Owned state.now table.now kept.now }
    ensures { Done plain (comes_to_guest state.now table.now caller
        (aside (committee round) out.old)) result state.now
        table.now out.new }
{
    match guesting::check(state, Right::Read, caller) {
        Ok(()) => crate::owned_views::forgelilac_owned_committee(state, table, kept, round, out),
        Err(refusal) => hosting::plain(Err(refusal)),
    }
}

/// A guest's read, of a host that owns its words: `forgelilac_guest_share`, with the kept committees. Right: read.
#[unsafe(no_mangle)]
pub extern "C" fn forgelilac_owned_guest_share(
    caller: u32,
    state: &[u32],
    table: &[u32],
    kept: &[u64],
    member: u32,
    round: u32,
) -> u64
    requires { Owned state.now table.now kept.now }
    ensures { Done packed (comes_to_guest state.now table.now caller
        (aside (share (record { 0 = member }) round) [])) result
        state.now table.now [] }
{
    match guesting::check(state, Right::Read, caller) {
        Ok(()) => crate::owned_views::forgelilac_owned_share(state, table, kept, member, round),
        Err(refusal) => hosting::packed(Err(refusal)),
    }
}

/// A guest's read, of a host that owns its words: `forgelilac_guest_bond_effect`, with the kept committees. Right: read.
#[unsafe(no_mangle)]
pub extern "C" fn forgelilac_owned_guest_bond_effect(
    caller: u32,
    state: &[u32],
    table: &[u32],
    kept: &[u64],
    member: u32,
    round: u32,
    amount: u32,
    out: &mut [u32],
) -> u32
    requires { Owned state.now table.now kept.now }
    ensures { Done plain (comes_to_guest state.now table.now caller
        (aside (effect (record { 0 = member }) round amount) out.old))
        result state.now table.now out.new }
{
    match guesting::check(state, Right::Read, caller) {
        Ok(()) => crate::owned_views::forgelilac_owned_bond_effect(
            state, table, kept, member, round, amount, out,
        ),
        Err(refusal) => hosting::plain(Err(refusal)),
    }
}

/// A guest's read, of a host that owns its words: `forgelilac_guest_certificate`, with the kept committees. Right: read.
#[unsafe(no_mangle)]
pub extern "C" fn forgelilac_owned_guest_certificate(
    caller: u32,
    state: &[u32],
    table: &[u32],
    kept: &[u64],
    author: u32,
    round: u32,
    out: &mut [u32],
) -> u32
    requires { Owned state.now table.now kept.now }
    ensures { Done plain (comes_to_guest state.now table.now caller
        (aside (certificate (record { 0 = author }) round) out.old)) result
        state.now table.now out.new }
{
    match guesting::check(state, Right::Read, caller) {
        Ok(()) => crate::owned_views::forgelilac_owned_certificate(
            state, table, kept, author, round, out,
        ),
        Err(refusal) => hosting::plain(Err(refusal)),
    }
}

/// A guest's read, of a host that owns its words: `forgelilac_guest_block`, with the kept committees. Right: read.
#[unsafe(no_mangle)]
pub extern "C" fn forgelilac_owned_guest_block(
    caller: u32,
    state: &[u32],
    table: &[u32],
    kept: &[u64],
    number: u32,
) -> u64
    requires { Owned state.now table.now kept.now }
    ensures { Done packed (comes_to_guest state.now table.now caller (aside (block number) []))
        result state.now table.now [] }
{
    match guesting::check(state, Right::Read, caller) {
        Ok(()) => crate::owned_views::forgelilac_owned_block(state, table, kept, number),
        Err(refusal) => hosting::packed(Err(refusal)),
    }
}

/// A guest's read, of a host that owns its words: `forgelilac_guest_preview`, with the kept committees. Right: read.
#[unsafe(no_mangle)]
pub extern "C" fn forgelilac_owned_guest_preview(
    caller: u32,
    state: &[u32],
    table: &[u32],
    kept: &[u64],
    list: &mut [u32],
) -> u64
    requires { Owned state.now table.now kept.now }
    ensures { Done packed (comes_to_guest state.now table.now caller
        (aside (preview (length list.old)) list.old)) result state.now table.now list.new }
{
    match guesting::check(state, Right::Read, caller) {
        Ok(()) => crate::owned_previews::forgelilac_owned_preview(state, table, kept, list),
        Err(refusal) => hosting::packed(Err(refusal)),
    }
}

/// A guest's read, of a host that owns its words: `forgelilac_guest_critical`, with the kept committees. Right: read.
#[unsafe(no_mangle)]
pub extern "C" fn forgelilac_owned_guest_critical(
    caller: u32,
    state: &[u32],
    table: &mut [u32],
    kept: &[u64],
    list: &mut [u32],
) -> u64
    requires { Owned state.now table.old kept.now }
    ensures done { Done packed (comes_to_guest state.now table.old caller
        (aside (critical (length list.old)) list.old)) result state.now table.new list.new }
    ensures owned { Owned state.now table.new kept.now }
{
    match guesting::check(state, Right::Read, caller) {
        Ok(()) => crate::owned_previews::forgelilac_owned_critical(state, table, kept, list),
        Err(refusal) => hosting::packed(Err(refusal)),
    }
}

/// A guest's read, of a host that owns its words: `forgelilac_guest_block_rows`, with the kept committees. Right: read.
#[unsafe(no_mangle)]
pub extern "C" fn forgelilac_owned_guest_block_rows(
    caller: u32,
    state: &[u32],
    table: &[u32],
    kept: &[u64],
    known: u32,
    number: u32,
    list: &mut [u32],
) -> u64
    requires { Owned state.now table.now kept.now }
    ensures { Done packed (comes_to_guest state.now table.now caller
        (aside (blocks known number (length list.old)) list.old)) result state.now
        table.now list.new }
{
    match guesting::check(state, Right::Read, caller) {
        Ok(()) => crate::owned_previews::forgelilac_owned_block_rows(
            state, table, kept, known, number, list,
        ),
        Err(refusal) => hosting::packed(Err(refusal)),
    }
}
