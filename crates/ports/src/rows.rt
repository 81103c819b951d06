//! What the rows of a block tell of the next line: where the first row with certificates of it has one alone, that one is next, whoever leads the row's order.

ghost use Rattle.std.specs.Prelude.{◌≡◌, true, false, ◌≢◌, ◌+◌, ◌*◌, ◌/◌, ◌%◌, ◌<◌, ◌≤◌};
ghost use Rattle.store.specs.Table.{Within};
ghost use Rattle.chain_committees.specs.Rows.{RowsTo};
ghost use Rattle.chain_committees.specs.Links.{Marked};
ghost use Rattle.extents.specs.Together.{Together};
ghost use Rattle.ports.specs.Next.{lines_from, lines_beyond, LinePlace};
ghost use Rattle.ports.specs.ByRows.{FirstMarked, RowsTell, LinesTold};

use chain_committees::chain::Chain;
use terms::{Member, Round};

/// The first of some lines, as far as rows tell it. `Untold` tells nothing: which lines rows tell no clause says.
#[derive(Debug, Clone, Copy)]
pub(crate) enum ByRows {
    /// There is no line.
    Nothing,
    /// It is that of this place.
    Line(u32),
    /// A row has several of a block, and their order decides; or a block has no certificate.
    Untold,
}

/// Has `place` a certificate of `block`?
pub(crate) fn is_marked(table: &[u32], block: u32, place: u32) -> bool
    requires { Within table.now (place % 16) (place / 16) }
    ensures { (result ≡ true → Marked table.now block place)
        × (result ≡ false → Marked table.now block place → ⊥) }
{
    let author = Member(place % 16);
    let round = Round(place / 16);
    store::held(table, author, round) && store::record::mark(table, author, round) == block
}

// The first place of row `round` from member `from` on with a certificate of `block`.
fn first_marked(table: &[u32], block: u32, round: Round, from: u32) -> Option<u32>
    requires { RowsTo table.now round × (from ≤ 16) }
    ensures { FirstMarked table.now block (round * 16 + from) (round * 16 + 16) result }
{
    let row = round.0 * 16;
    (row + from..row + 16).find(|&place| is_marked(table, block, place))
}

// What a row tells of a block.
#[tactic(auto, using(crate::proofs::RowLaws::empty_row))]
fn in_row(table: &[u32], block: u32, round: Round) -> ByRows
    requires { RowsTo table.now round }
    ensures { RowsTell table.now block (round * 16) (round * 16 + 16) result }
{
    if store::held_set(table, round) == 0 {
        return ByRows::Nothing;
    }
    let Some(place) = first_marked(table, block, round, 0) else {
        return ByRows::Nothing;
    };
    match first_marked(table, block, round, place % 16 + 1) {
        Some(_) => ByRows::Untold,
        None => ByRows::Line(place),
    }
}

// What the rows from `from` up to `to` tell of a block.
fn from_row(table: &[u32], to: Round, block: u32, from: Round) -> ByRows
    requires { RowsTo table.now to }
    ensures { RowsTell table.now block (from * 16) (to * 16 + 16) result }
{
    for round in from.0..to.0 + 1 {
        match in_row(table, block, Round(round)) {
            ByRows::Nothing => {}
            told => return told,
        }
    }
    ByRows::Nothing
}

// What the rows from `from` on tell of a block of the chain.
fn rows_on(chain: Chain, together: bool, block: u32, from: Round) -> ByRows
    requires block { (0 < block) × (block ≤ chain.blocks) }
    requires together { let c = chain in
        together ≡ true → Together c.settings.now.ceiling c.table.now c.blocks }
    ensures { let c = chain.entry in
        RowsTell c.table.now block (from * 16) (c.settings.now.ceiling * 16 + 16) result }
{
    let top = extents::top(chain, together, block);
    from_row(chain.table, top, block, from)
}

// What all rows tell of a block of the chain.
fn all_rows(chain: Chain, together: bool, block: u32) -> ByRows
    requires block { (0 < block) × (block ≤ chain.blocks) }
    requires together { let c = chain in
        together ≡ true → Together c.settings.now.ceiling c.table.now c.blocks }
    ensures { let c = chain.entry in
        RowsTell c.table.now block 16 (c.settings.now.ceiling * 16 + 16) result }
{
    let low = extents::low(chain, together, block);
    rows_on(chain, together, block, Round(low.0 + 1))
}

// The first line of the blocks after `block`.
#[tactic(auto, using(crate::proofs::RowLaws::none_later, crate::proofs::RowLaws::begins))]
fn first_after(chain: Chain, together: bool, block: u32) -> ByRows
    requires block { block ≤ chain.blocks }
    requires together { let c = chain in
        together ≡ true → Together c.settings.now.ceiling c.table.now c.blocks }
    ensures { let c = chain.entry in
        LinesTold (lines_beyond c.settings.now c.table.now c.blocks block) result }
{
    if block == chain.blocks {
        return ByRows::Nothing;
    }
    match all_rows(chain, together, block + 1) {
        ByRows::Nothing => ByRows::Untold,
        told => told,
    }
}

/// The line after that of `place`, which is that of a certificate in a block; the first line where it is 0. Where the blocks of the chain hang together, it looks at no rows but those of its block and of the next one, and the one below these.
#[tactic(auto, using(crate::proofs::RowLaws::next_alone, crate::proofs::RowLaws::row_last, crate::proofs::SearchLaws::from_start))]
pub(crate) fn line_after(chain: Chain, together: bool, place: u32) -> ByRows
    requires together { let c = chain in
        together ≡ true → Together c.settings.now.ceiling c.table.now c.blocks }
    requires place { place ≢ 0
        → LinePlace chain.table.now chain.settings.now.ceiling chain.blocks place }
    ensures { let c = chain.entry in
        LinesTold (lines_from c.settings.now c.table.now c.blocks place) result }
{
    if place == 0 {
        return first_after(chain, together, 0);
    }
    let round = Round(place / 16);
    let block = store::record::mark(chain.table, Member(place % 16), round);
    let ByRows::Line(_) = in_row(chain.table, block, round) else {
        return ByRows::Untold;
    };
    match rows_on(chain, together, block, Round(round.0 + 1)) {
        ByRows::Nothing => first_after(chain, together, block),
        told => told,
    }
}
