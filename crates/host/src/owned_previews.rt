//! What a host that owns its words has listed: the preview of a commit, the certificates that it hangs on, and what blocks in a row hold.

ghost use Rattle.std.specs.Prelude.{length};
ghost use Rattle.engine.specs.Calls.{preview, critical, blocks};
ghost use Rattle.hosting.specs.Calls.{packed, Done};
ghost use Rattle.hosting.specs.HostCalls.{comes_to, aside};
ghost use Rattle.owned.specs.Owned.{Owned};

use owned::lists;

/// What a commit would do, of a host that owns its words: `forgelilac_preview`, with the kept committees.
#[unsafe(no_mangle)]
pub extern "C" fn forgelilac_owned_preview(
    state: &[u32],
    table: &[u32],
    kept: &[u64],
    list: &mut [u32],
) -> u64
    requires { Owned state.now table.now kept.now }
    ensures { Done packed
        (comes_to state.now table.now (aside (preview (length list.old)) list.old)) result
        state.now table.now list.new }
{
    hosting::packed(lists::preview(state, table, kept, list))
}

/// What a commit hangs on, of a host that owns its words: `forgelilac_critical`, with the kept committees.
#[unsafe(no_mangle)]
pub extern "C" fn forgelilac_owned_critical(
    state: &[u32],
    table: &mut [u32],
    kept: &[u64],
    list: &mut [u32],
) -> u64
    requires { Owned state.now table.old kept.now }
    ensures done { Done packed
        (comes_to state.now table.old (aside (critical (length list.old)) list.old)) result
        state.now table.new list.new }
    ensures owned { Owned state.now table.new kept.now }
{
    hosting::packed(lists::critical(state, table, kept, list))
}

/// What blocks in a row hold, of a host that owns its words: `forgelilac_block_rows`, with the kept committees.
#[unsafe(no_mangle)]
pub extern "C" fn forgelilac_owned_block_rows(
    state: &[u32],
    table: &[u32],
    kept: &[u64],
    known: u32,
    number: u32,
    list: &mut [u32],
) -> u64
    requires { Owned state.now table.now kept.now }
    ensures { Done packed
        (comes_to state.now table.now (aside (blocks known number (length list.old)) list.old))
        result state.now table.now list.new }
{
    hosting::packed(lists::block_rows(state, table, kept, known, number, list))
}
