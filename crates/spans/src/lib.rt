//! What blocks in a row hold, as a list.
//!
//! The certificates of so many blocks after the first known, each block's in its order, as words in a lent list, with the endorsers that each was stored with (specs/Spans, specs/Listed). State and table stay as they are. Read in pieces they are the same, and what was read stays (src/theorems). docs/RULES.md, "Reads" and "Order inside a block".
//! Of any state and table (`blocks`) its cost is that of one pass over the marks of all that is held, of two steps for each certificate in these blocks, of one row looked at for each round in which a block has some, and of one walk over the blocks up to the last of these.
//! Where the blocks of the chain hang together (`blocks_together`, extents) there is no such pass: of each of these blocks the rows are looked at, four times each, between which its certificates lie, and one below them. A walk is begun only where a committee of their rounds is not cached, and then one for all.
#![tactic(auto)]

pub mod between;
pub mod block;
pub mod starts;
pub mod theorems;
pub mod together;

ghost use Rattle.std.specs.Prelude.{◌≡◌, [], ◌∷◌, ◌+◌, ◌*◌, ◌/◌, ◌≤◌, IfOk, OnOk, length, nat_lt};
ghost use Rattle.std.proofs.lemmas.List.Edits.{sets};
ghost use Rattle.base.specs.Checks.{refusal};
ghost use Rattle.base.specs.Puts.{Puts};
ghost use Rattle.chain_committees.specs.Told.{blocks_in};
ghost use Rattle.extents.specs.Together.{Together};
ghost use Rattle.refusals.specs.Refusals.{refusal_in};
ghost use Rattle.state.specs.Answers.{if_accepted};
ghost use Rattle.member_view.specs.Views.{shown};
ghost use Rattle.words.specs.Lengths.{held_length};
ghost use Rattle.spans.specs.Spans.{words_of, count_after, held_after};
ghost use Rattle.spans.specs.Listed.{blocks_refusal, blocks_held, blocks_list};

use chain_committees::over_blocks;
use chain_committees::walk::Walk;
use member_view::View;
use refusals::Refusal;
use state::State;
use words::bodies::lengths::HELD;

// How many certificates the `number` blocks after the first `known` hold.
fn count_span(walk: &Walk, known: u32, number: u32) -> u32
    requires { known + number ≤ walk.now.chain.blocks }
    ensures { let c = walk.now.chain in
        result ≡ count_after c.settings.now (blocks_in c) known number }
{
    let mut count = 0;
    for i in 0..number {
        count += block::count(walk, known + i);
    }
    count
}

// Puts what these blocks hold, oldest first, from the front of the list.
fn put_span(walk: &mut Walk, known: u32, number: u32, list: &mut [u32]) -> usize
    requires within { known + number ≤ walk.old.chain.blocks }
    requires room { let c = walk.old.chain in
        held_length * count_after c.settings.now (blocks_in c) known number ≤ length list.old }
    ensures { let c = walk.old.chain in
        Puts list.old list.new 0 result
        (words_of (held_after c.settings.now (blocks_in c) c.table.now known number))
        (held_length * count_after c.settings.now (blocks_in c) known number) }
{
    let mut to = 0;
    for i in 0..number {
        let start = block::start(walk, known + i);
        to = block::put(walk, start, known + i, list, to);
    }
    to
}

// Check 25, and the list.
#[tactic(auto, using(crate::proofs::SpanLaws::held_counted), unfolding(base::specs::Checks::refusal, state::specs::Answers::if_accepted))]
fn listed(walk: &mut Walk, known: u32, number: u32, list: &mut [u32]) -> Result<u32, Refusal>
    requires { known + number ≤ walk.old.chain.blocks }
    ensures refusal { let c = walk.old.chain in
        refusal_in result
        ≡ refusal ((
          nat_lt (length list.old / held_length)
              (count_after c.settings.now (blocks_in c) known number),
          25,
        ) ∷ []) }
    ensures value { let c = walk.old.chain in
        IfOk result (λ n. n
        ≡ length (held_after c.settings.now (blocks_in c) c.table.now known number)) }
    ensures list { let c = walk.old.chain in
        list.new ≡ if_accepted (refusal_in result)
        (sets list.old 0
        (words_of (held_after c.settings.now (blocks_in c) c.table.now known number))) list.old }
{
    let count = count_span(walk, known, number);
    if list.len() / HELD < count as usize {
        return Err(Refusal::LengthRange);
    }
    put_span(walk, known, number, list);
    Ok(count)
}

// Check 23.
#[tactic(auto, using(committee::proofs::ChainLaws::chain_length), unfolding(base::specs::Checks::refusal))]
fn check(view: &View, known: u32, number: u32) -> Result<(), Refusal>
    ensures refusal { refusal_in result
        ≡ refusal ((nat_lt (length (shown view.now).chain) (known + number), 23) ∷ []) }
    ensures there { OnOk result (known + number ≤ view.now.state.now.blocks) }
{
    if (view.state.blocks as u64) < known as u64 + number as u64 {
        return Err(Refusal::NoneThere);
    }
    Ok(())
}

/// Lists what the `number` blocks after the first `known` hold, oldest first, each in its order: the words of each certificate are those that the read of a certificate gives, eighteen; the value is their number. Checks 1, 23 and 25, in this order; refused, the list stays.
#[tactic(auto, unfolding(base::specs::Checks::refusal, state::specs::Answers::if_accepted, crate::specs::Listed::blocks_refusal, crate::specs::Listed::blocks_list))]
pub fn blocks(
    state: &State,
    table: &[u32],
    known: u32,
    number: u32,
    list: &mut [u32],
) -> Result<u32, Refusal>
    ensures refusal { refusal_in result ≡ blocks_refusal state.now table.now known number
        (length list.old) }
    ensures value { IfOk result (λ c. c ≡ length (blocks_held state.now table.now known number)) }
    ensures list { list.new ≡ blocks_list state.now table.now known number list.old }
{
    let view = View::known(state::well_formed(state, table), &[], state, table)?;
    check(&view, known, number)?;
    let chain = view.chain();
    over_blocks!(chain, walk => listed(&mut walk, known, number, list))
}

/// The same where the blocks of the chain hang together: no row is looked at but those between which the certificates of these blocks lie.
/// Where the committees of these blocks' rounds are cached no block is applied.
#[tactic(auto, unfolding(base::specs::Checks::refusal, state::specs::Answers::if_accepted, crate::specs::Listed::blocks_refusal, crate::specs::Listed::blocks_list))]
pub fn blocks_together(
    view: &View,
    known: u32,
    number: u32,
    list: &mut [u32],
) -> Result<u32, Refusal>
    requires together { let v = view.now in
        Together v.state.now.settings.ceiling v.table.now v.state.now.blocks }
    ensures refusal { let v = view.now in
        refusal_in result ≡ blocks_refusal v.state.now v.table.now known number (length list.old) }
    ensures value { let v = view.now in
        IfOk result (λ c. c ≡ length (blocks_held v.state.now v.table.now known number)) }
    ensures list { let v = view.now in
        list.new ≡ blocks_list v.state.now v.table.now known number list.old }
{
    check(view, known, number)?;
    together::listed(view.chain(), view.cache, known, number, list)
}
