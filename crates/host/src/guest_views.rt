//! What guests read, each with the right to read: the caller's right, and then the host's own read. Parameters are those of include/forgelilac.h, as many as they are.
#![tactic(auto, using(hosting::proofs::Answered::guest_refused, hosting::proofs::Answered::guest_allowed, hosting::proofs::Answered::some_number))]

ghost use Rattle.std.specs.Prelude.{[], length};
ghost use Rattle.engine.specs.Calls.{committee, share, effect, certificate, block, preview, critical, blocks};
ghost use Rattle.hosting.specs.Calls.{plain, packed, Done};
ghost use Rattle.hosting.specs.GuestForms.{comes_to_guest, aside};

use hosting::guesting;
use terms::rights::Right;

/// A guest reads the sixteen weights of a round's committee, into `out`. It answers 26 for a caller above 7 and 29 for one without the right, and then no word changes. Else it does and answers what `forgelilac_committee` does. Right: read. docs/RULES.md, "Rights".
#[unsafe(no_mangle)]
pub extern "C" fn forgelilac_guest_committee(
    caller: u32,
    state: &[u32],
    table: &[u32],
    round: u32,
    out: &mut [u32],
) -> u32
    ensures { Done plain (comes_to_guest state.now table.now caller
        (aside (committee round) out.old)) result state.now
        table.now out.new }
{
    match guesting::check(state, Right::Read, caller) {
        Ok(()) => crate::views::forgelilac_committee(state, table, round, out),
        Err(refusal) => hosting::plain(Err(refusal)),
    }
}

/// A guest reads the share of a member, in thousandths. It refuses with 26 a caller above 7 and with 29 one without the right, in the high half of the answer; then no word changes, and the low half is 0. Else it does and answers what `forgelilac_share` does. Right: read. docs/RULES.md, "Rights".
#[unsafe(no_mangle)]
pub extern "C" fn forgelilac_guest_share(
    caller: u32,
    state: &[u32],
    table: &[u32],
    member: u32,
    round: u32,
) -> u64
    ensures { Done packed (comes_to_guest state.now table.now caller
        (aside (share (record { 0 = member }) round) [])) result
        state.now table.now [] }
{
    match guesting::check(state, Right::Read, caller) {
        Ok(()) => crate::views::forgelilac_share(state, table, member, round),
        Err(refusal) => hosting::packed(Err(refusal)),
    }
}

/// A guest reads how far a bond would move the shares, 33 words into `out`. It answers 26 for a caller above 7 and 29 for one without the right, and then no word changes. Else it does and answers what `forgelilac_bond_effect` does. Right: read. docs/RULES.md, "Rights".
#[unsafe(no_mangle)]
pub extern "C" fn forgelilac_guest_bond_effect(
    caller: u32,
    state: &[u32],
    table: &[u32],
    member: u32,
    round: u32,
    amount: u32,
    out: &mut [u32],
) -> u32
    ensures { Done plain (comes_to_guest state.now table.now caller
        (aside (effect (record { 0 = member }) round amount) out.old))
        result state.now table.now out.new }
{
    match guesting::check(state, Right::Read, caller) {
        Ok(()) => crate::views::forgelilac_bond_effect(state, table, member, round, amount, out),
        Err(refusal) => hosting::plain(Err(refusal)),
    }
}

/// A guest reads a certificate that is held, 18 words into `out`. It answers 26 for a caller above 7 and 29 for one without the right, and then no word changes. Else it does and answers what `forgelilac_certificate` does. Right: read. docs/RULES.md, "Rights".
#[unsafe(no_mangle)]
pub extern "C" fn forgelilac_guest_certificate(
    caller: u32,
    state: &[u32],
    table: &[u32],
    author: u32,
    round: u32,
    out: &mut [u32],
) -> u32
    ensures { Done plain (comes_to_guest state.now table.now caller
        (aside (certificate (record { 0 = author }) round) out.old)) result
        state.now table.now out.new }
{
    match guesting::check(state, Right::Read, caller) {
        Ok(()) => crate::views::forgelilac_certificate(state, table, author, round, out),
        Err(refusal) => hosting::plain(Err(refusal)),
    }
}

/// A guest reads the round of a block by its number. It refuses with 26 a caller above 7 and with 29 one without the right, in the high half of the answer; then no word changes, and the low half is 0. Else it does and answers what `forgelilac_block` does. Right: read. docs/RULES.md, "Rights".
#[unsafe(no_mangle)]
pub extern "C" fn forgelilac_guest_block(
    caller: u32,
    state: &[u32],
    table: &[u32],
    number: u32,
) -> u64
    ensures { Done packed (comes_to_guest state.now table.now caller (aside (block number) []))
        result state.now table.now [] }
{
    match guesting::check(state, Right::Read, caller) {
        Ok(()) => crate::views::forgelilac_block(state, table, number),
        Err(refusal) => hosting::packed(Err(refusal)),
    }
}

/// A guest reads what a commit would do, three words for each certificate into `list`. It refuses with 26 a caller above 7 and with 29 one without the right, in the high half of the answer; then no word changes, and the low half is 0. Else it does and answers what `forgelilac_preview` does. Right: read. docs/RULES.md, "Rights".
#[unsafe(no_mangle)]
pub extern "C" fn forgelilac_guest_preview(
    caller: u32,
    state: &[u32],
    table: &[u32],
    list: &mut [u32],
) -> u64
    ensures { Done packed (comes_to_guest state.now table.now caller
        (aside (preview (length list.old)) list.old)) result state.now table.now list.new }
{
    match guesting::check(state, Right::Read, caller) {
        Ok(()) => crate::previews::forgelilac_preview(state, table, list),
        Err(refusal) => hosting::packed(Err(refusal)),
    }
}

/// A guest reads what a commit hangs on, two words for each certificate into `list`. It refuses with 26 a caller above 7 and with 29 one without the right, in the high half of the answer; then no word changes, and the low half is 0. Else it does and answers what `forgelilac_critical` does. Right: read. docs/RULES.md, "Rights".
#[unsafe(no_mangle)]
pub extern "C" fn forgelilac_guest_critical(
    caller: u32,
    state: &[u32],
    table: &mut [u32],
    list: &mut [u32],
) -> u64
    ensures { Done packed (comes_to_guest state.now table.old caller
        (aside (critical (length list.old)) list.old)) result state.now table.new list.new }
{
    match guesting::check(state, Right::Read, caller) {
        Ok(()) => crate::criticals::forgelilac_critical(state, table, list),
        Err(refusal) => hosting::packed(Err(refusal)),
    }
}

/// A guest reads what blocks in a row hold, eighteen words for each certificate into `list`. It refuses with 26 a caller above 7 and with 29 one without the right, in the high half of the answer; then no word changes, and the low half is 0. Else it does and answers what `forgelilac_block_rows` does. Right: read. docs/RULES.md, "Rights".
#[unsafe(no_mangle)]
pub extern "C" fn forgelilac_guest_block_rows(
    caller: u32,
    state: &[u32],
    table: &[u32],
    known: u32,
    number: u32,
    list: &mut [u32],
) -> u64
    ensures { Done packed (comes_to_guest state.now table.now caller
        (aside (blocks known number (length list.old)) list.old)) result state.now
        table.now list.new }
{
    match guesting::check(state, Right::Read, caller) {
        Ok(()) => crate::block_rows::forgelilac_block_rows(state, table, known, number, list),
        Err(refusal) => hosting::packed(Err(refusal)),
    }
}
