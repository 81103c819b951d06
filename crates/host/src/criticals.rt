//! The certificates that a commit hangs on, which a host asks for.
#![tactic(auto, using(hosting::proofs::Answered::result_unread))]

ghost use Rattle.std.specs.Prelude.{length};
ghost use Rattle.engine.specs.Calls.{critical};
ghost use Rattle.refusals.specs.Refusals.{packed_in};
ghost use Rattle.hosting.specs.Calls.{packed, Done};
ghost use Rattle.hosting.specs.HostCalls.{comes_to, aside};

use refusals::Refusal;

/// Lists the certificates whose absence alone would turn a commit into a refusal, two words each, into `list`, which has room for 32 at least. The table is lent for writing, and is afterwards as it was. The low half of the answer is how many were listed, the high half the number that refuses, 0 for none: 1, 25, 19, 20, 8, 21, 22. docs/RULES.md, "What a commit hangs on".
#[unsafe(no_mangle)]
pub extern "C" fn forgelilac_critical(state: &[u32], table: &mut [u32], list: &mut [u32]) -> u64
    ensures { Done packed
        (comes_to state.now table.old (aside (critical (length list.old)) list.old)) result
        state.now table.new list.new }
{
    hosting::packed(critical(state, table, list))
}

// The call, told as a result.
fn critical(state: &[u32], table: &mut [u32], list: &mut [u32]) -> Result<u32, Refusal>
    ensures { Done packed
        (comes_to state.now table.old (aside (critical (length list.old)) list.old))
        (packed_in result) state.now table.new list.new }
{
    let Some(s) = words::states::state(state) else {
        return Err(Refusal::Malformed);
    };
    critical::critical(&s, table, list)
}
