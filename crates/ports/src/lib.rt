//! Guests' serial ports over the listing of a chain.
//!
//! Eight byte registers for each of eight guests: what each offset shows, what a read takes, what a write and a reset leave (specs/Uart, over a listing; specs/Ports, in the table). Where a port stands is the last byte that it has read (specs/Cursors); the next one is found without the listing being made (specs/Next). A port that has read past the listing's end is not well formed. docs/RULES.md, "Serial ports".
#![tactic(auto)]

pub mod cursors;
pub mod places;
pub mod registers;
mod rows;
pub mod theorems;

ghost use Rattle.std.specs.Prelude.{◌≡◌, true, not, ◌+◌, ◌/◌, ◌%◌, ◌<◌, ◌≤◌, nat_le, get_or};
ghost use Rattle.base.specs.Folds.{all_to};
ghost use Rattle.store.specs.Table.{Row};
ghost use Rattle.chain_committees.specs.Rows.{RowsTo};
ghost use Rattle.terms.specs.declared.sheet.Settings.{Settings};
ghost use Rattle.ports.specs.Uart.{limits};
ghost use Rattle.ports.specs.Ports.{port_start, port_word, is_listed, cursor_fits, port_fits, ports_fit};

use crate::places::{PORT_BYTE, PORT_ENABLE, PORT_PLACE};
use store::lengths::GUEST;
use store::places::FIRST_PORT;
use terms::sheet::Settings;
use terms::{Member, Round};

// Where the eight words of `port` start, in row 0 of the table.
fn start(port: u32) -> usize
    requires { port < 8 }
    ensures { result ≡ port_start port }
{
    FIRST_PORT + port as usize * GUEST
}

/// Word `index` of `port`, of eight ports and eight words each: 0 and 1 tell the last byte that was read, the place of its line and which byte of it; 2 to 7 are the held registers.
#[tactic(auto, unfolding(crate::specs::Ports::port_word))]
pub(crate) fn word(table: &[u32], port: u32, index: u32) -> u32
    requires { Row table.now 0 × (port < 8) × (index < 8) }
    ensures { result ≡ port_word table.now port index }
{
    table[start(port) + index as usize]
}

// Is `place` of a certificate in one of the first blocks?
#[tactic(auto, unfolding(crate::specs::Ports::is_listed))]
fn is_listed(table: &[u32], ceiling: Round, blocks: u32, place: u32) -> bool
    requires { RowsTo table.now ceiling }
    ensures { result ≡ is_listed table.now ceiling blocks place }
{
    let author = Member(place % 16);
    let round = Round(place / 16);
    (16..ceiling.0 * 16 + 16).contains(&place)
        && store::held(table, author, round)
        && (1..=blocks).contains(&store::record::mark(table, author, round))
}

// Is `byte` of the line of `place` one of the listing, or are both 0?
#[tactic(auto, using(crate::proofs::FitLaws::listed_place), unfolding(crate::specs::Ports::cursor_fits))]
fn cursor_fits(table: &[u32], ceiling: Round, blocks: u32, place: u32, byte: u32) -> bool
    requires { RowsTo table.now ceiling × (blocks ≤ ceiling) }
    ensures { result ≡ cursor_fits table.now ceiling blocks place byte }
{
    if place == 0 {
        return byte == 0;
    }
    is_listed(table, ceiling, blocks, place)
        && (1..=cursors::line_length(table, place)).contains(&byte)
}

// Do the registers of `port` hold what they can?
#[tactic(auto, unfolding(base::specs::Folds::all_to))]
fn registers_fit(table: &[u32], port: u32) -> bool
    requires { Row table.now 0 × (port < 8) }
    ensures { result
        ≡ all_to (λ i. nat_le (port_word table.now port (2 + i)) (get_or limits i 0)) 6 }
{
    let most = [1u32, 255, 31, 255, 255, 255];
    (0..6).all(|i| word(table, port, PORT_ENABLE + i) <= most[i as usize])
}

// Has `port` not read past the end of the listing, and do its registers hold what they can?
#[tactic(auto, using(crate::proofs::FitLaws::port_local))]
fn port_fits(table: &[u32], settings: &Settings, blocks: u32, port: u32) -> bool
    requires { RowsTo table.now settings.now.ceiling × (blocks ≤ settings.now.ceiling)
        × (port < 8) }
    ensures { result ≡ port_fits settings.now table.now blocks port }
{
    cursor_fits(
        table,
        settings.ceiling,
        blocks,
        word(table, port, PORT_PLACE),
        word(table, port, PORT_BYTE),
    ) && registers_fit(table, port)
}

/// Are all eight ports well formed: none has read past the end of the listing, and their registers hold what they can?
#[tactic(auto, unfolding(crate::specs::Ports::ports_fit, base::specs::Folds::all_to))]
pub fn ports_fit(table: &[u32], settings: &Settings, blocks: u32) -> bool
    requires { RowsTo table.now settings.now.ceiling × (blocks ≤ settings.now.ceiling) }
    ensures { result ≡ ports_fit settings.now table.now blocks }
{
    (0..8).all(|g| port_fits(table, settings, blocks, g))
}
