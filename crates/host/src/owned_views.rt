//! The reads of a host that owns its words: what the public reads answer and leave, without a look at all that is held.
//!
//! Each has the parameters of the public read and the kept committees behind the table, as many as they are (include/forgelilac.h), and asks what the owner's calls ask. docs/HOSTS.md.

ghost use Rattle.std.specs.Prelude.{[]};
ghost use Rattle.engine.specs.Calls.{committee, share, effect, certificate, block};
ghost use Rattle.hosting.specs.Calls.{plain, packed, Done};
ghost use Rattle.hosting.specs.HostCalls.{comes_to, aside};
ghost use Rattle.owned.specs.Owned.{Owned};

use owned::views;

/// The weights of a round's committee, of a host that owns its words: `forgelilac_committee`, with the kept committees.
#[unsafe(no_mangle)]
pub extern "C" fn forgelilac_owned_committee(
    state: &[u32],
    table: &[u32],
    kept: &[u64],
    round: u32,
    out: &mut [u32],
) -> u32
    requires { Owned state.now table.now kept.now }
    ensures { Done plain
        (comes_to state.now table.now (aside (committee round) out.old)) result
        state.now table.now out.new }
{
    hosting::plain(views::committee(state, table, kept, round, out))
}

/// The share of a member, of a host that owns its words: `forgelilac_share`, with the kept committees.
#[unsafe(no_mangle)]
pub extern "C" fn forgelilac_owned_share(
    state: &[u32],
    table: &[u32],
    kept: &[u64],
    member: u32,
    round: u32,
) -> u64
    requires { Owned state.now table.now kept.now }
    ensures { Done packed (comes_to state.now table.now
        (aside (share (record { 0 = member }) round) [])) result
        state.now table.now [] }
{
    hosting::packed(views::share(state, table, kept, member, round))
}

/// How far a bond moves the shares, of a host that owns its words: `forgelilac_bond_effect`, with the kept committees.
#[unsafe(no_mangle)]
pub extern "C" fn forgelilac_owned_bond_effect(
    state: &[u32],
    table: &[u32],
    kept: &[u64],
    member: u32,
    round: u32,
    amount: u32,
    out: &mut [u32],
) -> u32
    requires { Owned state.now table.now kept.now }
    ensures { Done plain
        (comes_to state.now table.now
        (aside (effect (record { 0 = member }) round amount) out.old))
        result state.now table.now out.new }
{
    hosting::plain(views::bond_effect(state, table, kept, member, round, amount, out))
}

/// A certificate that is held, of a host that owns its words: `forgelilac_certificate`, with the kept committees.
#[unsafe(no_mangle)]
pub extern "C" fn forgelilac_owned_certificate(
    state: &[u32],
    table: &[u32],
    kept: &[u64],
    author: u32,
    round: u32,
    out: &mut [u32],
) -> u32
    requires { Owned state.now table.now kept.now }
    ensures { Done plain
        (comes_to state.now table.now
        (aside (certificate (record { 0 = author }) round) out.old)) result
        state.now table.now out.new }
{
    hosting::plain(views::certificate(state, table, kept, author, round, out))
}

/// The round of a block, of a host that owns its words: `forgelilac_block`, with the kept committees.
#[unsafe(no_mangle)]
pub extern "C" fn forgelilac_owned_block(
    state: &[u32],
    table: &[u32],
    kept: &[u64],
    number: u32,
) -> u64
    requires { Owned state.now table.now kept.now }
    ensures { Done packed (comes_to state.now table.now (aside (block number) [])) result
        state.now table.now [] }
{
    hosting::packed(views::block(state, table, kept, number))
}
