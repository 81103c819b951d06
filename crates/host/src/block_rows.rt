//! What blocks in a row hold, which a host asks for.
#![tactic(auto, using(hosting::proofs::Answered::result_unread))]

ghost use Rattle.std.specs.Prelude.{length};
ghost use Rattle.engine.specs.Calls.{blocks};
ghost use Rattle.refusals.specs.Refusals.{packed_in};
ghost use Rattle.hosting.specs.Calls.{packed, Done};
ghost use Rattle.hosting.specs.HostCalls.{comes_to, aside};

use refusals::Refusal;

/// Lists what `number` blocks after the first `known` hold, oldest first, each in its order, into `list`: eighteen words for each certificate, as `forgelilac_certificate` gives them, the last the number of its block. State and table are only read; what lies beyond in `list` stays. The low half of the answer is how many certificates were listed, the high half the number that refuses, 0 for none: 1, 23, 25. A held certificate is in one block or in none, so room for 16 for each round of the ceiling is enough. docs/RULES.md, "Reads".
#[unsafe(no_mangle)]
pub extern "C" fn forgelilac_block_rows(
    state: &[u32],
    table: &[u32],
    known: u32,
    number: u32,
    list: &mut [u32],
) -> u64
    ensures { Done packed
        (comes_to state.now table.now (aside (blocks known number (length list.old)) list.old))
        result state.now table.now list.new }
{
    hosting::packed(blocks(state, table, known, number, list))
}

// The call, told as a result.
fn blocks(
    state: &[u32],
    table: &[u32],
    known: u32,
    number: u32,
    list: &mut [u32],
) -> Result<u32, Refusal>
    ensures { Done packed
        (comes_to state.now table.now (aside (blocks known number (length list.old)) list.old))
        (packed_in result) state.now table.now list.new }
{
    let Some(s) = words::states::state(state) else {
        return Err(Refusal::Malformed);
    };
    spans::blocks(&s, table, known, number, list)
}
