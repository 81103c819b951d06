//! The registers of guests' serial ports, eight bytes of the 16450 each, over the listing of the chain: reads, writes, resets (docs/RULES.md, "Serial ports").

ghost use Rattle.std.specs.Prelude.{◌≡◌, true, if◌then◌else◌, not, ◌&&◌, ℕ, ◌+◌, ◌/◌, ◌%◌, ◌<◌, ◌==◌, nat_le, get_or, is_some, set, replicate};
ghost use Rattle.std.proofs.Math.Seq.{paste};
ghost use Rattle.base.specs.Options.{if_there};
ghost use Rattle.store.specs.Table.{Row};
ghost use Rattle.terms.specs.declared.sheet.Settings.{Settings};
ghost use Rattle.extents.specs.Together.{Hinted};
ghost use Rattle.ports.specs.Uart.{values_at, after_read, after_write};
ghost use Rattle.ports.specs.Ports.{port_word, port_start, words_written, listing_of, port_in, FormedPort, put_port};
ghost use Rattle.ports.specs.Bytes.{next_byte, looks_at_next};

use crate::cursors;
use crate::places::{
    OFFSET_DATA, OFFSET_ENABLE, OFFSET_INTERRUPT, OFFSET_LINE, OFFSET_MODEM, OFFSET_SCRATCH,
    OFFSET_STATUS, PORT_BYTE, PORT_DIVISOR_HIGH, PORT_DIVISOR_LOW, PORT_ENABLE, PORT_LINE,
    PORT_MODEM, PORT_PLACE, PORT_SCRATCH,
};
use chain_committees::chain::Chain;
use extents::Hints;
use store::lengths::PORT;
use terms::sheet::Settings;

/// The byte of the listing after the last one that a port has read, and where it stands.
#[derive(Debug, Clone, Copy)]
pub(crate) struct Next {
    /// The place of its line, 16 r + m for member m and round r.
    pub place: u32,
    /// Which byte of the line it is, from 1 on.
    pub bytes: u32,
    /// The byte.
    pub byte: u8,
}

// The next byte of `port`, none where no byte waits.
#[tactic(auto, using(crate::proofs::RegisterNextLaws::has_line, crate::proofs::RegisterNextLaws::stands_at))]
fn next_byte(chain: Chain, hints: Hints, port: u32) -> Option<Next>
    requires hints { let c = chain in Hinted c.settings.now c.table.now c.blocks hints }
    requires formed { FormedPort chain.settings.now chain.table.now chain.blocks port }
    ensures { let c = chain.entry in result ≡ next_byte c.settings.now c.table.now c.blocks port }
{
    let table = chain.table;
    let place = crate::word(table, port, PORT_PLACE);
    let bytes = crate::word(table, port, PORT_BYTE);
    if place != 0 && bytes < cursors::line_length(table, place) {
        return Some(Next {
            place,
            bytes: bytes + 1,
            byte: cursors::line_byte(table, place, bytes),
        });
    }
    let Some(q) = cursors::line_after(chain, hints, place) else {
        return None;
    };
    Some(Next {
        place: q,
        bytes: 1,
        byte: cursors::line_byte(table, q, 0),
    })
}

// Puts word `index` of `port`.
fn put_word(table: &mut [u32], port: u32, index: u32, value: u32)
    requires { Row table.old 0 × (port < 8) × (index < 8) }
    ensures { table.new ≡ set table.old (port_start port + index) value }
{
    table[crate::start(port) + index as usize] = value;
}

// Is bit 7 of offset 3 set?
fn shows_divisor(table: &[u32], port: u32) -> bool
    requires { Row table.now 0 × (port < 8) }
    ensures { result ≡ nat_le 128 (port_word table.now port PORT_LINE) }
{
    128 <= crate::word(table, port, PORT_LINE)
}

// Offset 0.
fn data(table: &[u32], port: u32, next: Option<Next>) -> u32
    requires { Row table.now 0 × (port < 8) }
    ensures { result ≡ (if nat_le 128 (port_word table.now port PORT_LINE)
        then port_word table.now port PORT_DIVISOR_LOW else if_there next 0 (λ x. x.byte)) }
{
    if shows_divisor(table, port) {
        return crate::word(table, port, PORT_DIVISOR_LOW);
    }
    match next {
        Some(x) => x.byte as u32,
        None => 0,
    }
}

// Offset 1.
fn enable(table: &[u32], port: u32) -> u32
    requires { Row table.now 0 × (port < 8) }
    ensures { result ≡ (if nat_le 128 (port_word table.now port PORT_LINE)
        then port_word table.now port PORT_DIVISOR_HIGH
        else port_word table.now port PORT_ENABLE) }
{
    crate::word(
        table,
        port,
        if shows_divisor(table, port) {
            PORT_DIVISOR_HIGH
        } else {
            PORT_ENABLE
        },
    )
}

// Offset 2.
fn interrupt(table: &[u32], port: u32, next: Option<Next>) -> u32
    requires { Row table.now 0 × (port < 8) }
    ensures { result ≡ (if port_word table.now port PORT_ENABLE == 1 && is_some next then 4
        else 1) }
{
    if crate::word(table, port, PORT_ENABLE) == 1 && next.is_some() {
        4
    } else {
        1
    }
}

// Offset 5.
fn status(next: Option<Next>) -> u32
    ensures { result ≡ (if is_some next then 97 else 96) }
{
    if next.is_some() { 97 } else { 96 }
}

// What `offset` shows; `next` is the next byte, where the offset looks at it.
#[tactic(auto, using(crate::proofs::ReadLaws::data_shown), unfolding(crate::specs::Uart::values_at, crate::specs::Ports::port_in, crate::specs::Bytes::looks_at_next))]
fn value(table: &[u32], port: u32, offset: u32, next: Option<Next>) -> u32
    requires { Row table.now 0 × (port < 8) × (offset < 8) }
    ensures { (S : Settings) (blocks : ℕ)
        → (looks_at_next offset ≡ true → next ≡ next_byte S table.now blocks port)
        → result
        ≡ get_or (values_at (listing_of S table.now blocks) (port_in S table.now blocks port))
        offset 0 }
{
    match offset {
        OFFSET_DATA => data(table, port, next),
        OFFSET_ENABLE => enable(table, port),
        OFFSET_INTERRUPT => interrupt(table, port, next),
        OFFSET_LINE => crate::word(table, port, PORT_LINE),
        OFFSET_MODEM => crate::word(table, port, PORT_MODEM),
        OFFSET_STATUS => status(next),
        OFFSET_SCRATCH => crate::word(table, port, PORT_SCRATCH),
        _ => 0,
    }
}

// The port stands behind the byte that it has read: at offset 0, if one was waiting and bit 7 of offset 3 is clear.
fn take(table: &mut [u32], port: u32, offset: u32, next: Option<Next>)
    requires { Row table.old 0 × (port < 8) }
    ensures { table.new
        ≡ (if offset == OFFSET_DATA && not (nat_le 128 (port_word table.old port PORT_LINE))
        then if_there next table.old
        (λ x. set (set table.old (port_start port + PORT_PLACE) x.place) (port_start port
        + PORT_BYTE) x.bytes) else table.old) }
{
    if offset == OFFSET_DATA && !shows_divisor(table, port) {
        if let Some(x) = next {
            put_word(table, port, PORT_PLACE, x.place);
            put_word(table, port, PORT_BYTE, x.bytes);
        }
    }
}

// Is the next byte looked at for `offset`?
#[tactic(auto, unfolding(crate::specs::Bytes::looks_at_next))]
fn looks_at_next(offset: u32) -> bool
    ensures { result ≡ looks_at_next offset }
{
    matches!(offset, OFFSET_DATA | OFFSET_INTERRUPT | OFFSET_STATUS)
}

// The next byte, where `offset` looks at it.
fn found(chain: Chain, hints: Hints, port: u32, offset: u32) -> Option<Next>
    requires hints { let c = chain in Hinted c.settings.now c.table.now c.blocks hints }
    requires formed { FormedPort chain.settings.now chain.table.now chain.blocks port }
    ensures { let c = chain.entry in
        looks_at_next offset ≡ true → result ≡ next_byte c.settings.now c.table.now c.blocks port }
{
    if looks_at_next(offset) {
        next_byte(chain, hints, port)
    } else {
        None
    }
}

/// A read of `port`, 0 to 7, at `offset`, 0 to 7: gives the byte that the offset shows. At offset 0, while bit 7 of offset 3 is clear and a byte of the listing waits, that byte is taken; nothing else changes.
/// Hints may tell committees of the chain's rounds, and that its blocks hang together.
pub fn read(
    hints: Hints,
    table: &mut [u32],
    settings: &Settings,
    blocks: u32,
    port: u32,
    offset: u32,
) -> u32
    requires hints { Hinted settings.now table.old blocks hints }
    requires formed { FormedPort settings.now table.old blocks port }
    requires offset { offset < 8 }
    ensures { let s = settings.now in
        (result
        ≡ get_or (values_at (listing_of s table.old blocks) (port_in s table.old blocks port))
        offset 0)
        × (table.new
        ≡ put_port s table.old blocks port (after_read (listing_of s table.old blocks)
        (port_in s table.old blocks port) offset)) }
{
    let next = found(Chain::new(table, settings, blocks), hints, port, offset);
    let byte = value(table, port, offset, next);
    take(table, port, offset, next);
    byte
}

// A write, by the words of the port.
#[tactic(auto, using(crate::proofs::WriteLaws::low_written, crate::proofs::WriteLaws::high_written, crate::proofs::WriteLaws::byte_dropped, crate::proofs::WriteLaws::enable_written, crate::proofs::WriteLaws::line_written, crate::proofs::WriteLaws::modem_written, crate::proofs::WriteLaws::scratch_written, crate::proofs::WriteLaws::nothing_written))]
fn put(table: &mut [u32], port: u32, offset: u32, byte: u32)
    requires { Row table.old 0 × (port < 8) × (byte < 256) }
    ensures { table.new
        ≡ paste table.old (port_start port) (words_written (port_word table.old port) offset byte)
        8 }
{
    match offset {
        OFFSET_DATA if shows_divisor(table, port) => put_word(table, port, PORT_DIVISOR_LOW, byte),
        OFFSET_ENABLE if shows_divisor(table, port) => put_word(
            table,
            port,
            PORT_DIVISOR_HIGH,
            byte,
        ),
        OFFSET_ENABLE => put_word(table, port, PORT_ENABLE, byte % 2),
        OFFSET_LINE => put_word(table, port, PORT_LINE, byte),
        OFFSET_MODEM => put_word(table, port, PORT_MODEM, byte % 32),
        OFFSET_SCRATCH => put_word(table, port, PORT_SCRATCH, byte),
        _ => {}
    }
}

/// A write of the byte to `port`, 0 to 7, at `offset`, 0 to 7. While bit 7 of offset 3 is set, offsets 0 and 1 keep the divisor's bytes; else offset 0 drops it and offset 1 keeps bit 0. Offset 3 keeps it, 4 its low five bits, 7 keeps it; 2, 5 and 6 drop it.
#[tactic(auto, using(crate::proofs::WriteLaws::port_written))]
pub fn write(table: &mut [u32], port: u32, offset: u32, byte: u8)
    requires { Row table.old 0 × (port < 8) × (offset < 8) }
    ensures words { table.new
        ≡ paste table.old (port_start port) (words_written (port_word table.old port) offset byte)
        8 }
    ensures port { (S : Settings) (blocks : ℕ) → FormedPort S table.old blocks port
        → table.new
        ≡ put_port S table.old blocks port
        (after_write (port_in S table.old blocks port) offset byte) }
{
    put(table, port, offset, byte as u32);
}

/// Resets `port`, 0 to 7: its words are 0, so all held registers are, and no byte counts as read.
pub fn reset(table: &mut [u32], port: u32)
    requires { Row table.old 0 × (port < 8) }
    ensures { table.new ≡ paste table.old (port_start port) (replicate 8 0) 8 }
{
    let at = crate::start(port);
    table[at..at + PORT].fill(0);
}
