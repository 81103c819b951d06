//! What blocks in a row hold, listed where the blocks of the chain hang together.

ghost use Rattle.std.specs.Prelude.{◌≡◌, [], ◌∷◌, ◌+◌, ◌*◌, ◌/◌, ◌≤◌, IfOk, length, nat_lt};
ghost use Rattle.std.proofs.lemmas.List.Edits.{sets};
ghost use Rattle.base.specs.Checks.{refusal};
ghost use Rattle.base.specs.Puts.{Puts};
ghost use Rattle.chain_committees.specs.Caches.{Caches};
ghost use Rattle.chain_committees.specs.Told.{blocks_in};
ghost use Rattle.extents.specs.Together.{Together};
ghost use Rattle.refusals.specs.Refusals.{refusal_in};
ghost use Rattle.state.specs.Answers.{if_accepted};
ghost use Rattle.words.specs.Lengths.{held_length};
ghost use Rattle.spans.specs.Spans.{words_of, count_after, held_after};

use crate::{between, starts};
use chain_committees::chain::Chain;
use refusals::Refusal;
use terms::Member;
use words::bodies::lengths::HELD;

// How many certificates the `number` blocks after the first `known` hold.
fn count_span(chain: Chain, known: u32, number: u32) -> u32
    requires within { known + number ≤ chain.blocks }
    requires together { let c = chain in
        Together c.settings.now.ceiling c.table.now c.blocks }
    ensures { let c = chain.entry in
        result ≡ count_after c.settings.now (blocks_in c) known number }
{
    let mut count = 0;
    for i in 0..number {
        count += between::count(chain, known + i);
    }
    count
}

// Puts what these blocks hold, oldest first, from the front of the list.
fn put_span(chain: Chain, cache: &[u64], known: u32, number: u32, list: &mut [u32]) -> usize
    requires within { known + number ≤ chain.blocks }
    requires together { let c = chain in
        Together c.settings.now.ceiling c.table.now c.blocks }
    requires caches { let c = chain in Caches c.settings.now (blocks_in c) cache.now }
    requires room { let c = chain in
        held_length * count_after c.settings.now (blocks_in c) known number ≤ length list.old }
    ensures { let c = chain.entry in
        Puts list.old list.new 0 result
        (words_of (held_after c.settings.now (blocks_in c) c.table.now known number))
        (held_length * count_after c.settings.now (blocks_in c) known number) }
{
    let starts = starts::starts(cache, chain, known, known + number);
    let mut to = 0;
    for i in 0..number {
        let before = known + i;
        let start = Member(starts[before as usize] as u32);
        to = between::put(chain, start, before, list, to);
    }
    to
}

/// Check 25, and the list.
#[tactic(auto, using(crate::proofs::SpanLaws::held_counted), unfolding(base::specs::Checks::refusal, state::specs::Answers::if_accepted))]
pub(crate) fn listed(
    chain: Chain,
    cache: &[u64],
    known: u32,
    number: u32,
    list: &mut [u32],
) -> Result<u32, Refusal>
    requires within { known + number ≤ chain.blocks }
    requires together { let c = chain in
        Together c.settings.now.ceiling c.table.now c.blocks }
    requires caches { let c = chain in Caches c.settings.now (blocks_in c) cache.now }
    ensures refusal { let c = chain.entry in
        refusal_in result
        ≡ refusal ((
          nat_lt (length list.old / held_length)
              (count_after c.settings.now (blocks_in c) known number),
          25,
        ) ∷ []) }
    ensures value { let c = chain.entry in
        IfOk result (λ n. n
        ≡ length (held_after c.settings.now (blocks_in c) c.table.now known number)) }
    ensures list { let c = chain.entry in
        list.new ≡ if_accepted (refusal_in result)
        (sets list.old 0
        (words_of (held_after c.settings.now (blocks_in c) c.table.now known number))) list.old }
{
    let count = count_span(chain, known, number);
    if list.len() / HELD < count as usize {
        return Err(Refusal::LengthRange);
    }
    put_span(chain, cache, known, number, list);
    Ok(count)
}
