//! The preview of a commit that a host asks for.
#![tactic(auto, using(hosting::proofs::Answered::result_unread))]

ghost use Rattle.std.specs.Prelude.{length};
ghost use Rattle.engine.specs.Calls.{preview};
ghost use Rattle.refusals.specs.Refusals.{packed_in};
ghost use Rattle.hosting.specs.Calls.{packed, Done};
ghost use Rattle.hosting.specs.HostCalls.{comes_to, aside};

use refusals::Refusal;

/// Lists what a commit would do: the certificates of each block that it would add, three words each, into `list`, which has room for 16 for each round of the ceiling at least. State and table are only read. The low half of the answer is how many were listed, the high half the number that refuses, 0 for none: 1, 25, 19, 20, 8, 21, 22. docs/RULES.md, "Preview".
#[unsafe(no_mangle)]
pub extern "C" fn forgelilac_preview(state: &[u32], table: &[u32], list: &mut [u32]) -> u64
    ensures { Done packed
        (comes_to state.now table.now (aside (preview (length list.old)) list.old)) result
        state.now table.now list.new }
{
    hosting::packed(preview(state, table, list))
}

// The call, told as a result.
fn preview(state: &[u32], table: &[u32], list: &mut [u32]) -> Result<u32, Refusal>
    ensures { Done packed
        (comes_to state.now table.now (aside (preview (length list.old)) list.old))
        (packed_in result) state.now table.now list.new }
{
    let Some(s) = words::states::state(state) else {
        return Err(Refusal::Malformed);
    };
    preview::preview(&s, table, list)
}
